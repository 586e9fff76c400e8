// What is counted while the numbers after the header are judged.
ghost use Rattle.std.specs.Prelude.{◌≡◌, ◌≤◌, length};
ghost use Rattle.texts.specs.Span.{token_in};
ghost use Rattle.texts.specs.Tally.{after_number, after_token};

use crate::header::Header;
use crate::numerals::number;
use crate::tokens::{Span, bytes_of};
use tables::literal::var;
use tables::numbers::Refusal;
use tables::sizes::{MOST_ENTRIES, MOST_LITERALS};

/// The counts so far.
#[derive(Clone, Copy, Debug, PartialEq, Eq)]
pub struct Tally {
    /// The numbers, the zeros among them.
    pub entries: usize,
    /// The zeros: the clauses that are ended.
    pub zeros: usize,
    /// The literals of the open clause.
    pub literals: usize,
}

impl Tally {
    /// Judges the next number, a literal's or 0, and counts it.
    #[tactic(auto, unfolding(crate::specs::Tally::after_number, crate::specs::Body::judged_number, crate::specs::Tally::tallied))]
    fn with_number(self, header: Header, place: usize, number: usize) -> Result<Tally, Refusal>
        ensures { result ≡ after_number header self place number }
    {
        if self.entries >= MOST_ENTRIES || (number != 0 && self.literals >= MOST_LITERALS) {
            return Err(Refusal::TooLarge(place));
        }
        if self.zeros >= header.clauses || var(number) > header.variables {
            return Err(Refusal::Undeclared(place));
        }
        let (zeros, literals) = if number == 0 {
            (self.zeros + 1, 0)
        } else {
            (self.zeros, self.literals + 1)
        };
        Ok(Tally {
            entries: self.entries + 1,
            zeros,
            literals,
        })
    }

    /// Judges the next token, and counts it.
    #[tactic(auto, unfolding(crate::specs::Tally::after_token))]
    pub fn with_token(self, header: Header, text: &[u8], token: Span) -> Result<Tally, Refusal>
        requires ordered { token.start ≤ token.end }
        requires within { token.end ≤ length text.now }
        ensures { result ≡ after_token header self (token_in text.now token) }
    {
        match number(bytes_of(text, token)) {
            None => Err(Refusal::Unreadable(token.start)),
            Some(number) => self.with_number(header, token.start, number),
        }
    }
}
