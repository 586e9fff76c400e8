// Numbers written out.
ghost use Rattle.std.specs.Prelude.{◌≡◌, ◌<◌, ◌^◌, drop};
ghost use Rattle.texts.specs.Decimal.{decimal};

/// The most digits that are written: no number of 64 bits has more.
pub const MOST_DIGITS: usize = 20;

/// The decimal digits of a number, at the end of a row: the row, and the place of the first digit.
#[tactic(auto, using(crate::proofs::DecimalSteps::decimal_one, crate::proofs::DecimalSteps::decimal_more, crate::proofs::DecimalSteps::tenth_fits, crate::proofs::DecimalSteps::two_left))]
pub fn decimal(number: usize) -> ([u8; MOST_DIGITS], usize)
    ensures is { drop result.1 result.0 ≡ decimal number }
    ensures within { result.1 < 20 }
{
    let mut digits = [b'0'; MOST_DIGITS];
    let mut first = MOST_DIGITS;
    let mut rest = number;
    while rest >= 10 {
        first -= 1;
        digits[first] = b'0' + (rest % 10) as u8;
        rest /= 10;
    }
    first -= 1;
    digits[first] = b'0' + rest as u8;
    (digits, first)
}
