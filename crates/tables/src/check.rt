// The table check: is a lent table one, and where is the first place that is not.
ghost use Rattle.std.specs.Prelude.{◌≡◌};
ghost use Rattle.tables.specs.Check.{checked};

use crate::numbers::Refusal;
use crate::sizes::{MOST_CLAUSES, MOST_ENTRIES, MOST_LITERALS, MOST_VARIABLES};

#[tactic(auto, unfolding(crate::specs::Check::checked, crate::specs::Check::check_from))]
/// The table check, in one pass: accepted, or the first refusal in the order of the rules.
pub fn check(n: usize, table: &[i32]) -> Result<(), Refusal>
    ensures { result ≡ checked n table.now }
{
    if n > MOST_VARIABLES {
        return Err(Refusal::TooLarge(0));
    }
    if table.len() > MOST_ENTRIES {
        return Err(Refusal::TooLarge(MOST_ENTRIES));
    }
    let mut zeros = 0;
    let mut literals = 0;
    for (place, &entry) in table.iter().enumerate() {
        if entry == 0 {
            if zeros >= MOST_CLAUSES {
                return Err(Refusal::TooLarge(place));
            }
            zeros += 1;
            literals = 0;
        } else {
            if literals >= MOST_LITERALS {
                return Err(Refusal::TooLarge(place));
            }
            if entry.unsigned_abs() as usize > n {
                return Err(Refusal::Undeclared(place));
            }
            literals += 1;
        }
    }
    if literals == 0 {
        Ok(())
    } else {
        Err(Refusal::Undeclared(table.len()))
    }
}
