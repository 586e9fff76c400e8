// Asking for one variable: a gate's value asks its inputs, and each input asks its own gate. Answers are remembered, so that
// none is worked out twice.
ghost use Rattle.std.specs.Prelude.{◌≡◌, ◌+◌, ◌*◌, ◌≤◌, ◌<◌, set, ◌^◌, length, get_or};
ghost use Rattle.std.specs.List.{All};
ghost use Rattle.tables.specs.Literal.{var};
ghost use Rattle.rules.specs.Ask.{asked};
ghost use Rattle.filling.specs.Places.{IsPlaced};
ghost use Rattle.gates.specs.TakenGates.{gates_in};
ghost use Rattle.filling.specs.Asking.{IsCircuit, IsTaken, Remembers, ended};

use crate::places::{gate_for, place_all};
use gates::inputs::is_counted;
use gates::site::Site;
use gates::taken::Taken;
use gates::value::{rule_of, site_kind};
use rules::standing::stands_for;
use tables::literal::{is_negative, var};
use tables::sizes::{MOST_VARIABLES, VARIABLE_NUMBERS};
use tables::values::is_set;

/// Gates in an order of evaluation, and values for the variables that are no outputs.
#[derive(Clone, Copy)]
pub struct Circuit<'a> {
    pub taken: Taken<'a>,
    /// A byte for each variable, 1 for true.
    pub given: &'a [u8],
}

/// The answer for a variable, if it is remembered.
fn recall(memo: &[Option<bool>], variable: usize) -> Option<bool>
    ensures { result ≡ get_or memo.now variable None }
{
    match memo.get(variable) {
        Some(&answer) => answer,
        None => None,
    }
}

/// Remembers the answer for a variable.
fn remember(memo: &mut [Option<bool>], variable: usize, value: bool)
    ensures { memo.new ≡ set memo.old variable (Some value) }
{
    if variable < memo.len() {
        memo[variable] = Some(value);
    }
}

/// A variable's value: its gate's, or the given one.
#[cycle(asking)]
fn variable_value(
    circuit: &Circuit,
    places: &[u16],
    memo: &mut [Option<bool>],
    variable: usize,
) -> bool
    requires circuit { IsCircuit circuit.now }
    requires placed { IsPlaced circuit.now.taken.sites.now places.now }
    requires memo { Remembers circuit.now memo.old }
    ensures is { result ≡ ended circuit.now variable }
    ensures memo { Remembers circuit.now memo.new }
{
    if let Some(value) = recall(memo, variable) {
        return value;
    }
    let value = match gate_for(circuit.taken.sites, places, variable) {
        Some(site) => gate_value(circuit, places, memo, site),
        None => is_set(circuit.given, variable),
    };
    remember(memo, variable, value);
    value
}

/// A gate's value: its kind's rule of the values of its inputs.
#[cycle(asking)]
fn gate_value(circuit: &Circuit, places: &[u16], memo: &mut [Option<bool>], site: Site) -> bool
    requires circuit { IsCircuit circuit.now }
    requires site { IsTaken circuit.now site }
    requires placed { IsPlaced circuit.now.taken.sites.now places.now }
    requires memo { Remembers circuit.now memo.old }
    ensures is { result ≡ ended circuit.now (var site.output) }
    ensures memo { Remembers circuit.now memo.new }
{
    let kind = site_kind(circuit.taken.row, site);
    let mut trues = 0;
    let mut inputs = 0;
    for input in site.inputs(circuit.taken.row) {
        let value = variable_value(circuit, places, memo, var(input));
        trues += usize::from(is_counted(kind, input, value));
        inputs += 1;
    }
    rule_of(kind, trues, inputs)
}

/// A variable's value, from values for the free ones: that of the literal that it stands for.
#[tactic(auto, using(crate::proofs::AskSteps::asked_ended))]
pub fn ask(circuit: &Circuit, stands: &[u16], variable: usize) -> bool
    requires circuit { IsCircuit circuit.now }
    requires few { variable ≤ MOST_VARIABLES }
    requires few_gates { length circuit.now.taken.sites.now < 2 ^ 16 }
    requires outputs { All (λ site. var site.output ≤ MOST_VARIABLES) circuit.now.taken.sites.now }
    ensures { result ≡ asked stands.now (gates_in circuit.now.taken) circuit.now.given.now variable }
{
    let mut places = [0; VARIABLE_NUMBERS];
    place_all(circuit.taken.sites, &mut places);
    let mut memo = [None; VARIABLE_NUMBERS];
    let literal = stands_for(stands, variable);
    variable_value(circuit, &places, &mut memo, var(literal)) != is_negative(literal)
}
