// The build program: clause text on standard input, and on standard output its listing, or one line with X, the number and the
// place of what is wrong.
#![tactic(auto)]

use builder::program::answer;
use intake::fill;
use std::io;
use std::io::Write;
use tables::sizes::MOST_BYTES;

fn main(rt: HostRuntime) -> io::Result<()> {
    // One byte more than a text may have, so that a longer one is seen.
    let mut text = [0; MOST_BYTES + 1];
    let read = fill(&mut rt.reader(), &mut text)?;
    let mut out = [0; MOST_BYTES];
    let bytes = answer(text.split_at(read).0, &mut out);
    io::writer(&rt).write_all(out.split_at(bytes).0)
}
