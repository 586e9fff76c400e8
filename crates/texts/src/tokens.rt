// The tokens of a text, one after another.
ghost use Rattle.std.specs.Prelude.{◌≡◌, ◌<◌, ◌≤◌, [], ◌∷◌, length, MatchOption, IfSome};
ghost use Rattle.std.specs.List.{slice_range};
ghost use Rattle.texts.specs.Tokens.{tokens_at};
ghost use Rattle.texts.specs.Span.{token_in};

use crate::bytes::{gap, word};

/// Where a token stands in its text.
#[derive(Clone, Copy, Debug, PartialEq, Eq)]
pub struct Span {
    /// The place of the token's first byte.
    pub start: usize,
    /// The place behind its last one.
    pub end: usize,
}

/// The first token at a place or behind it, where no token starts before the place and goes on past it.
#[tactic(auto, using(crate::proofs::TokenSteps::no_token, crate::proofs::TokenSteps::one_token, crate::proofs::TokenSteps::word_some))]
pub fn next_token(text: &[u8], from: usize) -> Option<Span>
    requires { from ≤ length text.now }
    ensures is { let tokens = tokens_at from text.now in
        MatchOption result (tokens ≡ []) (λ s. tokens ≡ token_in text.now s ∷ tokens_at s.end text.now) }
    ensures within { IfSome result (λ s. (from ≤ s.start) × (s.start < s.end) × (s.end ≤ length text.now)) }
{
    let start = from + gap(text.split_at(from).1);
    if start == text.len() {
        return None;
    }
    let end = start + word(text.split_at(start).1);
    Some(Span { start, end })
}

/// The bytes of a token.
pub fn bytes_of(text: &[u8], token: Span) -> &[u8]
    requires ordered { token.start ≤ token.end }
    requires within { token.end ≤ length text.now }
    ensures { result.now ≡ slice_range text.now token.start token.end }
{
    &text[token.start..token.end]
}
