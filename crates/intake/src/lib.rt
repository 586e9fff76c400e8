// What the programs read: a stream into a lent buffer, as far as both go.
#![tactic(auto)]

ghost use Rattle.std.specs.Prelude.{◌≤◌, length, IfOk};

use std::io;
use std::io::Read;

/// Fills the buffer from the reader as far as both go; how many bytes were read.
pub fn fill(input: &mut impl Read, buffer: &mut [u8]) -> io::Result<usize>
    ensures { IfOk result (λ filled. filled ≤ length buffer.new) }
{
    let mut filled = 0;
    while filled < buffer.len() {
        let more = input.read(&mut buffer[filled..])?;
        if more == 0 {
            break;
        }
        filled += more;
    }
    Ok(filled)
}
