// The header line of a clause text, and the lines before it.
ghost use Rattle.std.specs.Prelude.{◌≡◌, ◌<◌, ◌≤◌, false, length, IfOk, MatchResult, Ok, Err};
ghost use Rattle.texts.specs.Tokens.{tokens_at};
ghost use Rattle.texts.specs.Line.{after_word, after_size};
ghost use Rattle.texts.specs.Header.{remarks, no_more, size_c, size_v, word_cnf, word_p, header_at, header};

use crate::bytes::line;
use crate::numerals::natural;
use crate::tokens::{bytes_of, next_token};
use tables::numbers::Refusal;
use tables::sizes::{MOST_CLAUSES, MOST_VARIABLES};

/// What a header line says.
#[derive(Clone, Copy, Debug, PartialEq, Eq)]
pub struct Header {
    /// V: the variables are numbered from 1 to this.
    pub variables: usize,
    /// C: so many clauses follow.
    pub clauses: usize,
    /// The place where the line ends: its LF, or the text's end.
    pub end: usize,
}

/// How many bytes the lines before the header have.
#[tactic(auto, unfolding(crate::specs::Header::remarks))]
fn remarks(text: &[u8]) -> usize
    ensures is { result ≡ remarks false text.now }
    ensures within { result ≤ length text.now }
{
    let mut inside = false;
    for (place, &byte) in text.iter().enumerate() {
        if inside {
            inside = byte != b'\n';
        } else if byte == b'c' {
            inside = true;
        } else {
            return place;
        }
    }
    text.len()
}

/// The place behind the next token of the header line, which is this word.
#[tactic(auto, unfolding(crate::specs::Line::after_word))]
fn after_word(line: &[u8], from: usize, wanted: &[u8]) -> Result<usize, Refusal>
    requires { from ≤ length line.now }
    ensures within { IfOk result (λ end. end ≤ length line.now) }
    ensures is { let left = after_word (length line.now) wanted.now (tokens_at from line.now) in
        MatchResult result (λ end. left ≡ Ok (tokens_at end line.now)) (λ why. left ≡ Err why) }
{
    match next_token(line, from) {
        None => Err(Refusal::Unreadable(line.len())),
        Some(token) if bytes_of(line, token) == wanted => Ok(token.end),
        Some(token) => Err(Refusal::Unreadable(token.start)),
    }
}

/// The next token of the header line, which is a size of at most this, and the place behind it.
#[tactic(auto, unfolding(crate::specs::Line::after_size))]
fn after_size(line: &[u8], from: usize, most: usize) -> Result<(usize, usize), Refusal>
    requires { from ≤ length line.now }
    ensures within { IfOk result (λ size. size.1 ≤ length line.now) }
    ensures is { let left = after_size (length line.now) most (tokens_at from line.now) in
        MatchResult result (λ size. left ≡ Ok (size.0, tokens_at size.1 line.now)) (λ why. left ≡ Err why) }
{
    let Some(token) = next_token(line, from) else {
        return Err(Refusal::Unreadable(line.len()));
    };
    match natural(bytes_of(line, token)) {
        None => Err(Refusal::Unreadable(token.start)),
        Some(size) if size > most => Err(Refusal::TooLarge(token.start)),
        Some(size) => Ok((size, token.end)),
    }
}

/// The end of the header line: V, C, and no more.
#[tactic(auto, using(crate::proofs::HeaderSteps::v_err))]
fn sizes(line: &[u8], from: usize) -> Result<Header, Refusal>
    requires { from ≤ length line.now }
    ensures is { result ≡ size_v (length line.now) (tokens_at from line.now) }
    ensures within { IfOk result (λ h. h.end ≡ length line.now) }
{
    let (variables, behind_v) = after_size(line, from, MOST_VARIABLES)?;
    let (clauses, behind_c) = after_size(line, behind_v, MOST_CLAUSES)?;
    match next_token(line, behind_c) {
        None => Ok(Header {
            variables,
            clauses,
            end: line.len(),
        }),
        Some(surplus) => Err(Refusal::Unreadable(surplus.start)),
    }
}

/// The header line that starts at a place of its text, of which the line's end is the end.
#[tactic(auto, using(crate::proofs::HeaderSteps::p_ok, crate::proofs::HeaderSteps::p_err, crate::proofs::HeaderSteps::cnf_ok, crate::proofs::HeaderSteps::cnf_err))]
fn header_line(line: &[u8], start: usize) -> Result<Header, Refusal>
    requires { start ≤ length line.now }
    ensures is { result ≡ word_p (length line.now) (tokens_at start line.now) }
    ensures within { IfOk result (λ h. h.end ≡ length line.now) }
{
    let behind_p = after_word(line, start, b"p")?;
    let behind_cnf = after_word(line, behind_p, b"cnf")?;
    sizes(line, behind_cnf)
}

/// What the header of a text says, or the first reason to refuse it.
#[tactic(auto, unfolding(crate::specs::Header::header, crate::specs::Header::header_at))]
pub fn header_of(text: &[u8]) -> Result<Header, Refusal>
    ensures is { result ≡ header text.now }
    ensures within { IfOk result (λ h. h.end ≤ length text.now) }
{
    let start = remarks(text);
    match text.get(start) {
        None => Err(Refusal::Unreadable(text.len())),
        Some(b'p') => {
            let end = start + line(text.split_at(start).1);
            header_line(text.split_at(end).0, start)
        }
        Some(_) => Err(Refusal::Unreadable(start)),
    }
}
