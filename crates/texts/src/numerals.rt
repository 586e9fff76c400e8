// Numbers in clause text.
ghost use Rattle.std.specs.Prelude.{◌≡◌, ◌<◌, ◌≤◌, ◌^◌, length, unwrap_or, IfSome};
ghost use Rattle.tables.specs.Literal.{entry};
ghost use Rattle.texts.specs.Numbers.{digits, natural, number};

use tables::literal::entry;

/// The most digits of a number.
const MOST_DIGITS: usize = 9;

/// The number that digits say: none where another byte stands among them.
#[tactic(auto, using(crate::proofs::NumeralSteps::digit_fits, crate::proofs::NumeralSteps::few_digits), unfolding(crate::specs::Numbers::digits))]
fn value_of(word: &[u8]) -> Option<usize>
    requires { length word.now ≤ MOST_DIGITS }
    ensures is { result ≡ digits 0 word.now }
    ensures small { IfSome result (λ v. v < 1_000_000_000) }
{
    let mut value = 0;
    for &byte in word {
        if !byte.is_ascii_digit() {
            return None;
        }
        value = 10 * value + (byte - b'0') as usize;
    }
    Some(value)
}

/// A number without a sign, as V and C are.
#[tactic(auto, unfolding(crate::specs::Numbers::natural))]
pub fn natural(word: &[u8]) -> Option<usize>
    ensures is { result ≡ natural word.now }
    ensures small { IfSome result (λ v. v < 1_000_000_000) }
{
    match word {
        [] => None,
        [b'0'] => Some(0),
        [b'0', ..] => None,
        _ if word.len() > MOST_DIGITS => None,
        _ => value_of(word),
    }
}

/// The number of a literal, or 0.
#[tactic(auto, unfolding(crate::specs::Numbers::number, crate::specs::Numbers::plain, crate::specs::Numbers::minus))]
pub fn number(word: &[u8]) -> Option<usize>
    ensures is { result ≡ number word.now }
    ensures small { IfSome result (λ l. l < 2_000_000_000) }
{
    match word {
        [b'-', digits @ ..] => natural(digits).filter(|&v| v != 0).map(|v| 2 * v + 1),
        _ => natural(word).map(|v| 2 * v),
    }
}

/// The entry that a number in a clause says: 0 where it is no number.
pub fn entry_of(word: &[u8]) -> i32
    ensures { result ≡ entry (unwrap_or (number word.now) 0) }
{
    entry(number(word).unwrap_or(0))
}
