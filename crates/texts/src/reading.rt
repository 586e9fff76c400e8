// The reading of a clause text.
ghost use Rattle.std.specs.Prelude.{◌≡◌, length};
ghost use Rattle.texts.specs.Reading.{reading, row_after};

use crate::body::{judge_body, read_body};
use crate::header::header_of;
use tables::numbers::Refusal;
use tables::sizes::MOST_BYTES;

/// The size of the table that a text says.
#[derive(Clone, Copy, Debug, PartialEq, Eq)]
pub struct Reading {
    /// The variables are numbered from 1 to this.
    pub variables: usize,
    /// The entries of the table, the zeros among them.
    pub entries: usize,
}

/// Reads a text into the front of a lent row: judged first as a whole, so that a refusal leaves the row as it was.
#[tactic(auto, using(crate::proofs::RowSteps::entries_front), unfolding(crate::specs::Reading::reading, crate::specs::Reading::row_after, crate::specs::Reading::roomed, crate::specs::Reading::verdict, crate::specs::Reading::judged, crate::specs::Reading::behind, crate::specs::Buffer::leaves, tables::specs::Numbers::refuse))]
pub fn read(text: &[u8], row: &mut [i32]) -> Result<Reading, Refusal>
    ensures is { result ≡ reading text.now (length row.old) }
    ensures written { row.new ≡ row_after text.now row.old }
{
    if text.len() > MOST_BYTES {
        return Err(Refusal::TooLarge(MOST_BYTES));
    }
    let header = header_of(text)?;
    let entries = judge_body(text, header)?;
    if entries > row.len() {
        return Err(Refusal::ShortBuffer(entries));
    }
    read_body(text, header.end, row);
    Ok(Reading {
        variables: header.variables,
        entries,
    })
}
