// The numbers after the header: judged first, and read afterwards.
ghost use Rattle.std.specs.Prelude.{◌≡◌, ◌≤◌, Ok, length};
ghost use Rattle.std.specs.Result.{result_and};
ghost use Rattle.texts.specs.Tokens.{tokens_at};
ghost use Rattle.texts.specs.Body.{body_from, entries};
ghost use Rattle.texts.specs.Buffer.{overlay};

use crate::header::Header;
use crate::numerals::entry_of;
use crate::tally::Tally;
use crate::tokens::{bytes_of, next_token};
use tables::numbers::Refusal;

/// Judges what follows the header line, in one pass: how many entries it says, or the first reason to refuse it.
#[tactic(auto, using(crate::proofs::BodySteps::body_ok, crate::proofs::BodySteps::body_err, crate::proofs::BodySteps::one_entry), unfolding(crate::specs::Body::body_from))]
pub fn judge_body(text: &[u8], header: Header) -> Result<usize, Refusal>
    requires { header.end ≤ length text.now }
    ensures { let tokens = tokens_at header.end text.now in
        result ≡ result_and (body_from header.variables header.clauses (length text.now) 0 0 0 tokens) (Ok (length tokens)) }
{
    let mut tally = Tally {
        entries: 0,
        zeros: 0,
        literals: 0,
    };
    let mut place = header.end;
    while let Some(token) = next_token(text, place) {
        tally = tally.with_token(header, text, token)?;
        place = token.end;
    }
    if tally.zeros == header.clauses && tally.literals == 0 {
        Ok(tally.entries)
    } else {
        Err(Refusal::Undeclared(text.len()))
    }
}

/// Reads what follows the header line into the front of a row, entry by entry, as far as the row goes.
#[tactic(auto, using(crate::proofs::RowSteps::overlay_past), unfolding(crate::specs::Buffer::overlay, crate::specs::Body::entry_of))]
pub fn read_body(text: &[u8], from: usize, row: &mut [i32])
    requires { from ≤ length text.now }
    ensures { row.new ≡ overlay row.old 0 (entries (tokens_at from text.now)) }
{
    let mut place = from;
    for cell in row.iter_mut() {
        let Some(token) = next_token(text, place) else {
            return;
        };
        *cell = entry_of(bytes_of(text, token));
        place = token.end;
    }
}
