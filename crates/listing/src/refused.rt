// The line that stands in the place of a listing, where there is none.
ghost use Rattle.std.specs.Prelude.{◌≡◌, ◌≤◌, length};
ghost use Rattle.rules.specs.Listing.{line_x};
ghost use Rattle.texts.specs.Buffer.{overlay};

use crate::fields::put_numbers;
use tables::numbers::Refusal;
use texts::pieces::Laying;

/// Lays the line of a refusal over the front of a buffer: how many bytes it has.
pub fn put_x(out: &mut [u8], why: Refusal) -> usize
    ensures is { result ≡ length (line_x why) }
    ensures short { result ≤ 64 }
    ensures laid { out.new ≡ overlay out.old 0 (line_x why) }
{
    let number = why.number() as usize;
    let place = why.place();
    let mut laying = Laying { out, at: 0 };
    put_numbers(&mut laying, b"X", &[number, place]);
    laying.at
}
