// The ask: one variable's value, from values for the free ones.
ghost use Rattle.std.specs.Prelude.{◌≡◌, ◌||◌, ◌≤◌, [], ◌∷◌, Ok, IfOk, length, eqb, ltb};
ghost use Rattle.std.specs.Result.{result_and};
ghost use Rattle.tables.specs.Numbers.{refuse, first_refusal};
ghost use Rattle.tables.specs.declared.numbers.Refusal.TheVariants.{OutOfRange, ShortBuffer};
ghost use Rattle.rules.specs.Ask.{asked};
ghost use Rattle.rules.specs.Calls.{bad_value, ask, wiped};
ghost use Rattle.gates.specs.TakenGates.{gates_in};
ghost use Rattle.builder.specs.Evenings.{Evaluates};
ghost use Rattle.builder.specs.Values.{bad_in};

use crate::evening::begin_evening;
use crate::values::check_values;
use filling::ask::Circuit;
use gates::site::Site;
use listing::evening::Evening;
use rules::book::Book;
use tables::check::check;
use tables::numbers::Refusal;
use tables::sizes::{MOST_VARIABLES, VARIABLE_NUMBERS};

/// Whether the values given are enough.
#[tactic(auto, unfolding(tables::specs::Numbers::refuse))]
fn enough_given(n: usize, given: &[u8]) -> Result<(), Refusal>
    ensures is { result ≡ refuse (ltb (length given.now) n) (ShortBuffer n) }
    ensures fits { IfOk result (λ _. n ≤ length given.now) }
{
    if given.len() < n {
        return Err(Refusal::ShortBuffer(n));
    }
    Ok(())
}

/// Asks an evening for one of its variables.
#[tactic(auto, unfolding(tables::specs::Numbers::first_refusal))]
fn ask_evening(evening: &Evening, given: &[u8], variable: usize) -> Result<bool, Refusal>
    requires evaluates { Evaluates evening.now }
    requires variable { variable ≤ evening.now.n }
    ensures { result ≡ result_and (first_refusal (refuse (ltb (length given.now) evening.now.n) (ShortBuffer evening.now.n) ∷ bad_value (bad_in evening.now given.now) ∷ []))
        (Ok (asked evening.now.stands.now (gates_in evening.now.taken) given.now variable)) }
{
    enough_given(evening.n, given)?;
    check_values(evening, given)?;
    let circuit = Circuit {
        taken: evening.taken,
        given,
    };
    Ok(filling::ask::ask(&circuit, evening.stands, variable))
}

/// Whether the asked variable is one.
#[tactic(auto, unfolding(tables::specs::Numbers::refuse))]
fn in_range(n: usize, variable: usize) -> Result<(), Refusal>
    ensures is { result ≡ refuse (eqb variable 0 || ltb n variable) OutOfRange }
    ensures fits { IfOk result (λ _. variable ≤ n) }
{
    if variable == 0 || variable > n {
        return Err(Refusal::OutOfRange);
    }
    Ok(())
}

/// The ask, with the work buffer left as it comes.
fn asked(
    n: usize,
    table: &[i32],
    book: &Book,
    work: &mut [i32],
    given: &[u8],
    variable: usize,
) -> Result<bool, Refusal>
    ensures { result ≡ ask n table.now book.now (length work.old) given.now variable }
{
    check(n, table)?;
    in_range(n, variable)?;
    let mut stands = [0; VARIABLE_NUMBERS];
    let mut sites = [Site::default(); MOST_VARIABLES];
    let evening = begin_evening(n, table, book, work, &mut stands, &mut sites)?;
    ask_evening(&evening, given, variable)
}

/// The value of one variable, where each free one has its given value: that of its place in the fill. The work buffer is all
/// zero afterwards.
#[tactic(auto, unfolding(rules::specs::Calls::wiped))]
pub fn ask(
    n: usize,
    table: &[i32],
    book: &Book,
    work: &mut [i32],
    given: &[u8],
    variable: usize,
) -> Result<bool, Refusal>
    ensures is { result ≡ ask n table.now book.now (length work.old) given.now variable }
    ensures wiped { work.new ≡ wiped work.old }
{
    let answer = asked(n, table, book, work, given, variable);
    work.fill(0);
    answer
}
