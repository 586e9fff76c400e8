// Clause text, read and written.
ghost use Rattle.std.specs.Prelude.{◌≡◌, length};
ghost use Rattle.texts.specs.Reading.{reading, row_after};
ghost use Rattle.texts.specs.Writing.{writing, buffer_after};
ghost use Rattle.boundary.specs.Answers.{told, read_numbers, written_numbers};

use crate::answer::{Answer, accepted, refused};
use texts::reading::read;
use texts::writing::write;

/// Reads clause text into a lent row; also returns the variables and the entries.
#[tactic(auto, unfolding(crate::specs::Answers::told, crate::specs::Answers::read_numbers, crate::specs::Answers::accepted, crate::specs::Answers::refused, rules::specs::Calls::numbers, rules::specs::Calls::returned))]
#[unsafe(no_mangle)]
pub extern "C" fn choptimber_read(text: &[u8], row: &mut [i32]) -> Answer
    ensures is { result ≡ told (read_numbers (reading text.now (length row.old))) }
    ensures written { row.new ≡ row_after text.now row.old }
{
    match read(text, row) {
        Ok(reading) => accepted(reading.variables, reading.entries),
        Err(why) => refused(why),
    }
}

/// Writes a table as clause text into a lent buffer; also returns the bytes.
#[tactic(auto, unfolding(crate::specs::Answers::told, crate::specs::Answers::written_numbers, crate::specs::Answers::accepted, crate::specs::Answers::refused, rules::specs::Calls::numbers, rules::specs::Calls::returned))]
#[unsafe(no_mangle)]
pub extern "C" fn choptimber_write(n: usize, table: &[i32], out: &mut [u8]) -> Answer
    ensures is { result ≡ told (written_numbers (writing n table.now (length out.old))) }
    ensures written { out.new ≡ buffer_after n table.now out.old }
{
    match write(n, table, out) {
        Ok(bytes) => accepted(bytes, 0),
        Err(why) => refused(why),
    }
}
