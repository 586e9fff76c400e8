// The lines of a stream, byte by byte into a lent buffer.
use std::io;
use std::io::Read;

/// The most bytes of a line, without its LF.
pub const MOST_LINE: usize = 2_048;

/// The next byte, if one comes.
fn next_byte(input: &mut impl Read) -> io::Result<Option<u8>> {
    let mut byte = [0];
    let count = input.read(&mut byte)?;
    Ok(if count == 0 { None } else { Some(byte[0]) })
}

/// Reads a line, without its LF, into the front of the buffer: how many bytes it has, or none at the input's end. What passes
/// the buffer's end is lost, but counted.
pub fn next_line(input: &mut impl Read, buffer: &mut [u8]) -> io::Result<Option<usize>> {
    let mut length = 0usize;
    for _ in 0..u64::MAX {
        match next_byte(input)? {
            Some(b'\n') => return Ok(Some(length)),
            Some(byte) => {
                if length < buffer.len() {
                    buffer[length] = byte;
                }
                length = length.saturating_add(1);
            }
            None => break,
        }
    }
    Ok(if length == 0 { None } else { Some(length) })
}
