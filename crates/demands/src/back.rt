// Clause text there and back by the code itself: a table is written, and what was written is read.
ghost use Rattle.std.specs.Prelude.{◌≡◌, ◌≤◌, Ok, length};
ghost use Rattle.tables.specs.Sizes.{most_bytes};
ghost use Rattle.tables.specs.Check.{checked};
ghost use Rattle.texts.specs.Buffer.{front};
ghost use Rattle.texts.specs.Writing.{written};

use tables::numbers::Refusal;
use texts::reading::{Reading, read};
use texts::writing::write;

/// Writes a table as clause text, and reads the text into a row. Of a table that the check accepts, with room for its text of at
/// most 65,536 bytes and for its entries, the reading gives n and the table back.
pub fn write_and_read(
    n: usize,
    table: &[i32],
    out: &mut [u8],
    row: &mut [i32],
) -> Result<Reading, Refusal>
    ensures { checked n table.now ≡ Ok tt → length (written n table.now) ≤ most_bytes → length (written n table.now) ≤ length out.old → length table.now ≤ length row.old
        → (result ≡ Ok (record { variables = n; entries = length table.now })) × (row.new ≡ front table.now row.old) }
{
    let bytes = write(n, table, out)?;
    read(out.split_at(bytes).0, row)
}
