// What the build program prints for a text: the listing, or one line with X, number and place.
ghost use Rattle.std.specs.Prelude.{◌≡◌, ◌≤◌, length, take};
ghost use Rattle.tables.specs.Sizes.{most_bytes};
ghost use Rattle.rules.specs.Program.{program};
ghost use Rattle.builder.specs.Programs.{Prints};

use crate::build::build;
use listing::refused::put_x;
use rules::book::Book;
use tables::numbers::Refusal;
use tables::sizes::{MOST_ENTRIES, WORK_ROOM};
use texts::reading::read;

/// Reads a text and builds its listing at the front of a buffer; how many bytes that is.
fn build_text(text: &[u8], out: &mut [u8]) -> Result<usize, Refusal>
    requires { length out.old ≡ most_bytes }
    ensures { Prints text.now result out.new }
{
    let mut row = [0; MOST_ENTRIES];
    let read = read(text, &mut row)?;
    let (table, _) = row.split_at(read.entries);
    let mut work = [0; WORK_ROOM];
    let built = build(read.variables, table, &Book::new(), &mut work, out)?;
    Ok(built.bytes)
}

/// The build program's answer to a text, at the front of a buffer of 65,536 bytes; how many bytes that is.
pub fn answer(text: &[u8], out: &mut [u8]) -> usize
    requires { length out.old ≡ most_bytes }
    ensures is { take result out.new ≡ program text.now }
    ensures within { result ≤ length out.new }
{
    match build_text(text, out) {
        Ok(bytes) => bytes,
        Err(why) => put_x(out, why),
    }
}
