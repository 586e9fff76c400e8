// The writing of clause text.
ghost use Rattle.std.specs.Prelude.{◌≡◌, ◌+◌, ◌<◌, ◌≤◌, ◌^◌, length};
ghost use Rattle.tables.specs.Clause.{clauses};
ghost use Rattle.texts.specs.Buffer.{overlay};
ghost use Rattle.texts.specs.Laying.{laid, lay};
ghost use Rattle.texts.specs.Writing.{clause_lines, first_line, written, writing, buffer_after};

use crate::pieces::Laying;
use tables::check::check;
use tables::literal::literal;
use tables::numbers::Refusal;

/// How many clauses a table has.
fn count_clauses(table: &[i32]) -> usize
    ensures is { result ≡ length (clauses table.now) }
    ensures few { result ≤ length table.now }
{
    table.iter().filter(|&&entry| literal(entry) == 0).count()
}

/// Lays the header line, without its LF.
#[tactic(auto, using(crate::proofs::LaySteps::laid_behind), unfolding(crate::specs::Writing::first_line))]
fn put_first_line(laying: &mut Laying, variables: usize, clauses: usize)
    ensures { laid laying.new ≡ lay (laid laying.old) (first_line variables clauses) }
{
    laying.put(b"p cnf ");
    laying.put_number(variables);
    laying.put(b" ");
    laying.put_number(clauses);
}

/// Lays the clause lines of a table.
#[tactic(auto, using(crate::proofs::WriteSteps::line_laid, crate::proofs::WriteSteps::lines_laid))]
fn put_lines(laying: &mut Laying, table: &[i32])
    ensures { laid laying.new ≡ lay (laid laying.old) (clause_lines table.now) }
{
    for &entry in table {
        laying.put_piece(entry);
    }
}

/// Lays the written text of a table.
#[tactic(auto, using(crate::proofs::LaySteps::laid_behind), unfolding(crate::specs::Writing::written))]
fn put_written(laying: &mut Laying, n: usize, table: &[i32])
    ensures { laid laying.new ≡ lay (laid laying.old) (written n table.now) }
{
    put_first_line(laying, n, count_clauses(table));
    laying.put(b"\n");
    put_lines(laying, table);
}

/// Lays the written text of a table over the front of a buffer.
fn put_text(out: &mut [u8], n: usize, table: &[i32]) -> usize
    requires { length (written n table.now) < 2 ^ 64 }
    ensures is { result ≡ length (written n table.now) }
    ensures laid { out.new ≡ overlay out.old 0 (written n table.now) }
{
    let mut laying = Laying { out, at: 0 };
    put_written(&mut laying, n, table);
    laying.at
}

/// Writes a table as clause text into the front of a lent buffer, and returns how many bytes that is. A refused call leaves
/// the buffer as it was: the text is first laid over an empty buffer, which counts its bytes.
#[tactic(auto, using(crate::proofs::WriteSteps::accepted_short, crate::proofs::RowSteps::overlay_front), unfolding(crate::specs::Writing::writing, crate::specs::Writing::buffer_after, crate::specs::Buffer::leaves, tables::specs::Numbers::refuse, tables::specs::Numbers::first_refusal))]
pub fn write(n: usize, table: &[i32], out: &mut [u8]) -> Result<usize, Refusal>
    ensures is { result ≡ writing n table.now (length out.old) }
    ensures written { out.new ≡ buffer_after n table.now out.old }
{
    check(n, table)?;
    let bytes = put_text(&mut [], n, table);
    if bytes > out.len() {
        return Err(Refusal::ShortBuffer(bytes));
    }
    put_text(out, n, table);
    Ok(bytes)
}
