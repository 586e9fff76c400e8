// A program: clause text on standard input, and the same in written form on standard output, or a line with X, the number
// and the place of what is wrong.
#![tactic(auto)]

ghost use Rattle.std.specs.Prelude.{◌≡◌, ◌≤◌, length, IfOk};
ghost use Rattle.rewrite.specs.Rewriting.{rewriting, rewritten};

use intake::fill;
use std::io;
use std::io::Write;
use tables::numbers::Refusal;
use tables::sizes::{MOST_BYTES, MOST_ENTRIES};
use texts::reading::read;
use texts::writing::write;

/// The most bytes of a written table: a header line, and an entry in at most six bytes.
const MOST_WRITTEN: usize = 131_072;

/// The text in written form, at the front of `out`; how many bytes it has.
fn rewrite(text: &[u8], out: &mut [u8]) -> Result<usize, Refusal>
    ensures is { result ≡ rewriting text.now (length out.old) }
    ensures written { out.new ≡ rewritten text.now out.old }
    ensures within { IfOk result (λ bytes. bytes ≤ length out.new) }
{
    let mut row = [0i32; MOST_ENTRIES];
    let read = read(text, &mut row)?;
    write(read.variables, row.split_at(read.entries).0, out)
}

fn main(rt: HostRuntime) -> io::Result<()> {
    // One byte more than a text may have, so that a longer one is seen.
    let mut text = [0u8; MOST_BYTES + 1];
    let read = fill(&mut rt.reader(), &mut text)?;
    let mut out = [0u8; MOST_WRITTEN];
    match rewrite(text.split_at(read).0, &mut out) {
        Ok(bytes) => io::writer(&rt).write_all(out.split_at(bytes).0),
        Err(why) => println!(rt; "X\t{}\t{}", why.number(), why.place()),
    }
}
