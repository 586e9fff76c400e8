// What the build program prints.
ghost use Rattle.std.specs.Prelude.{◌≡◌, ◌≢◌, ◌≤◌, length, take};
ghost use Rattle.tables.specs.Sizes.{most_bytes};
ghost use Rattle.tables.specs.declared.numbers.Refusal.TheVariants.{ShortBuffer};
ghost use Rattle.rules.specs.Program.{program};
ghost use Rattle.boundary.specs.Answers.{accepted, refused};

use crate::answer::{Answer, accepted, refused};
use builder::program::answer;
use tables::numbers::Refusal;
use tables::sizes::MOST_BYTES;

/// Prints the build program's answer to a text into a lent buffer, which has to be of the program's size; also returns the
/// bytes. A buffer of another size is refused, and left as it was found.
#[tactic(auto, unfolding(crate::specs::Answers::accepted, crate::specs::Answers::refused))]
#[unsafe(no_mangle)]
pub extern "C" fn choptimber_program(text: &[u8], out: &mut [u8]) -> Answer
    ensures is { length out.old ≡ most_bytes → (result.number ≡ 0) × (take result.first out.new ≡ program text.now) }
    ensures told { length out.old ≡ most_bytes → (result ≡ accepted result.first 0) × (result.first ≤ length out.new) }
    ensures refused { length out.old ≢ most_bytes → (result ≡ refused (ShortBuffer most_bytes)) × (out.new ≡ out.old) }
    ensures sized { result.number ≡ 0 → length out.old ≡ most_bytes }
{
    if out.len() != MOST_BYTES {
        return refused(Refusal::ShortBuffer(MOST_BYTES));
    }
    let bytes = answer(text, out);
    accepted(bytes, 0)
}
