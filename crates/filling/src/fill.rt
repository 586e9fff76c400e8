// Filling in all variables from values for the free ones: one walk over the gates, one over the variables.
ghost use Rattle.std.specs.Prelude.{◌≡◌, ◌+◌, ◌*◌, ◌≤◌, map, length, take};
ghost use Rattle.std.specs.List.{All, range_with_len};
ghost use Rattle.tables.specs.Literal.{literal, var};
ghost use Rattle.rules.specs.Pairs;
ghost use Rattle.rules.specs.Fill.{fill_step, fill_gates, filled};
ghost use Rattle.gates.specs.Sites.{Within, gate_of};
ghost use Rattle.gates.specs.TakenGates.{gates_in};
ghost use Rattle.filling.specs.Filling.{shown};

use gates::site::Site;
use gates::taken::Taken;
use gates::value::site_value;
use rules::standing::stands_for;
use tables::literal::var;
use tables::sizes::MOST_VARIABLES;
use tables::values::is_true;

/// Gives a gate's output its value.
#[tactic(auto, using(gates::proofs::SiteLaws::output_at, crate::proofs::FillSteps::step_past), unfolding(rules::specs::Fill::fill_step, rules::specs::Fill::bit))]
fn evaluate_one(row: &[i32], site: Site, values: &mut [u8])
    requires { Within row.now site }
    ensures { values.new ≡ fill_step values.old (gate_of row.now site) }
{
    let value = u8::from(site_value(row, site, values));
    let place = var(site.output).saturating_sub(1);
    if place < values.len() {
        values[place] = value;
    }
}

/// Gives each gate's output its value, in the order of evaluation.
#[tactic(auto, using(crate::proofs::FillSteps::evaluate_turns), unfolding(rules::specs::Fill::fill_gates))]
pub fn evaluate(taken: &Taken, values: &mut [u8])
    ensures { values.new ≡ fill_gates (gates_in taken.now) values.old }
{
    for &site in taken.sites {
        evaluate_one(taken.row, site, values);
    }
}

/// A variable's value: that of the literal that it stands for.
#[tactic(auto, unfolding(crate::specs::Filling::shown, rules::specs::Fill::bit))]
fn shown(stands: &[u16], ended: &[u8], variable: usize) -> u8
    requires { 2 * variable ≤ usize.MAX }
    ensures { result ≡ shown stands.now ended.now variable }
{
    u8::from(is_true(ended, stands_for(stands, variable)))
}

/// Writes each variable's value.
#[tactic(auto, using(crate::proofs::FillSteps::show_turns, crate::proofs::FillSteps::show_ends))]
fn show_each(stands: &[u16], ended: &[u8], values: &mut [u8])
    requires { length values.old ≤ MOST_VARIABLES }
    ensures { values.new ≡ map (shown stands.now ended.now) (range_with_len 1 (length values.old)) }
{
    for (place, value) in values.iter_mut().enumerate() {
        *value = shown(stands, ended, place + 1);
    }
}

/// Fills in all variables, of which the free ones have the values given.
#[tactic(auto, using(crate::proofs::Filled::filled_front))]
pub fn fill(taken: &Taken, stands: &[u16], given: &[u8], values: &mut [u8])
    requires few { length values.old ≤ MOST_VARIABLES }
    requires given { length values.old ≤ length given.now }
    requires inside { All (λ e. var (literal e) ≤ length values.old) taken.now.row.now }
    requires standing { All (λ l. var l ≤ length values.old) stands.now }
    ensures { values.new ≡ filled (length values.old) stands.now (gates_in taken.now) given.now }
{
    let n = values.len();
    let mut room = [0; MOST_VARIABLES];
    let ended = &mut room[..n];
    ended.copy_from_slice(&given[..n]);
    evaluate(taken, ended);
    show_each(stands, ended, values);
}
