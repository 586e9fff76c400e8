// The values given to a fill or an ask: that of a free variable has to be 0 or 1, and any other is not looked at.
ghost use Rattle.std.specs.Prelude.{◌≡◌, ◌+◌, ◌-◌, ◌&&◌, ◌≤◌, length, get_or, ltb};
ghost use Rattle.rules.specs.Forced.{marked};
ghost use Rattle.rules.specs.Taking.{is_output};
ghost use Rattle.rules.specs.Circuit.{free};
ghost use Rattle.rules.specs.Calls.{bad_value};
ghost use Rattle.gates.specs.TakenGates.{gates_in};
ghost use Rattle.builder.specs.Values.{is_bad, bad_in};

use gates::outputs::{is_free, mark_outputs};
use listing::evening::Evening;
use tables::numbers::Refusal;
use tables::sizes::VARIABLE_NUMBERS;

/// Whether the value at a place is neither 0 nor 1. None is beyond the row.
fn is_no_bit(values: &[u8], place: usize) -> bool
    ensures { result ≡ ltb 1 (get_or values.now place 0) }
{
    match values.get(place) {
        Some(&value) => value > 1,
        None => false,
    }
}

/// Whether a variable is free and its value is neither 0 nor 1.
fn is_bad(evening: &Evening, outputs: &[u8], given: &[u8], variable: usize) -> bool
    requires from_one { 1 ≤ variable }
    requires marked { marked outputs.now variable ≡ is_output (gates_in evening.now.taken) variable }
    ensures { result ≡ is_bad evening.now given.now variable }
{
    is_free(evening.stands, outputs, variable) && is_no_bit(given, variable - 1)
}

/// Refuses the lowest free variable whose value is neither 0 nor 1.
#[tactic(auto, using(crate::proofs::BadValues::none_bad, crate::proofs::BadValues::first_bad))]
pub fn check_values(evening: &Evening, given: &[u8]) -> Result<(), Refusal>
    ensures { result ≡ bad_value (bad_in evening.now given.now) }
{
    let mut outputs = [0; VARIABLE_NUMBERS];
    mark_outputs(evening.taken.sites, &mut outputs);
    for variable in 1..evening.n + 1 {
        if is_bad(evening, &outputs, given, variable) {
            return Err(Refusal::BadValue(variable));
        }
    }
    Ok(())
}
