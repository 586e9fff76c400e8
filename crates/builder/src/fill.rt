// The fill: all variables from values for the free ones.
ghost use Rattle.std.specs.Prelude.{◌≡◌, ◌||◌, ◌≤◌, [], ◌∷◌, length, ltb, IfOk};
ghost use Rattle.tables.specs.Numbers.{refuse, first_refusal};
ghost use Rattle.tables.specs.declared.numbers.Refusal.TheVariants.{ShortBuffer};
ghost use Rattle.texts.specs.Buffer.{leaves};
ghost use Rattle.rules.specs.Fill.{filled};
ghost use Rattle.rules.specs.Calls.{bad_value, fill_verdict, fill_values, wiped};
ghost use Rattle.gates.specs.TakenGates.{gates_in};
ghost use Rattle.builder.specs.Values.{bad_in};

use crate::evening::begin_evening;
use crate::values::check_values;
use gates::site::Site;
use listing::evening::Evening;
use rules::book::Book;
use tables::check::check;
use tables::numbers::Refusal;
use tables::sizes::{MOST_VARIABLES, VARIABLE_NUMBERS};

/// Whether there is room for a value of each variable.
#[tactic(auto, unfolding(tables::specs::Numbers::refuse))]
fn room_for_values(n: usize, given: &[u8], values: &[u8]) -> Result<(), Refusal>
    ensures is { result ≡ refuse (ltb (length given.now) n || ltb (length values.now) n) (ShortBuffer n) }
    ensures fits { IfOk result (λ _. (n ≤ length given.now) × (n ≤ length values.now)) }
{
    if given.len() < n || values.len() < n {
        return Err(Refusal::ShortBuffer(n));
    }
    Ok(())
}

/// Fills in an evening's variables.
#[tactic(auto, using(crate::proofs::Fills::filled_front), unfolding(tables::specs::Numbers::first_refusal, texts::specs::Buffer::leaves))]
fn fill_evening(evening: &Evening, given: &[u8], values: &mut [u8]) -> Result<(), Refusal>
    ensures is { result ≡ first_refusal (refuse (ltb (length given.now) evening.now.n || ltb (length values.old) evening.now.n) (ShortBuffer evening.now.n) ∷ bad_value (bad_in evening.now given.now) ∷ []) }
    ensures values { values.new ≡ leaves result (filled evening.now.n evening.now.stands.now (gates_in evening.now.taken) given.now) values.old }
{
    room_for_values(evening.n, given, values)?;
    check_values(evening, given)?;
    let (front, _) = values.split_at_mut(evening.n);
    filling::fill::fill(&evening.taken, evening.stands, given, front);
    Ok(())
}

/// The fill, with the work buffer left as it comes.
fn filled_in(
    n: usize,
    table: &[i32],
    book: &Book,
    work: &mut [i32],
    given: &[u8],
    values: &mut [u8],
) -> Result<(), Refusal>
    ensures is { result ≡ fill_verdict n table.now book.now (length work.old) given.now (length values.old) }
    ensures values { values.new ≡ fill_values n table.now book.now (length work.old) given.now values.old }
{
    check(n, table)?;
    let mut stands = [0; VARIABLE_NUMBERS];
    let mut sites = [Site::default(); MOST_VARIABLES];
    let evening = begin_evening(n, table, book, work, &mut stands, &mut sites)?;
    fill_evening(&evening, given, values)
}

/// Fills in all variables: each free one has its given value, and what is given for any other is ignored. The work buffer is
/// all zero afterwards.
#[tactic(auto, unfolding(rules::specs::Calls::wiped))]
pub fn fill(
    n: usize,
    table: &[i32],
    book: &Book,
    work: &mut [i32],
    given: &[u8],
    values: &mut [u8],
) -> Result<(), Refusal>
    ensures is { result ≡ fill_verdict n table.now book.now (length work.old) given.now (length values.old) }
    ensures values { values.new ≡ fill_values n table.now book.now (length work.old) given.now values.old }
    ensures wiped { work.new ≡ wiped work.old }
{
    let answer = filled_in(n, table, book, work, given, values);
    work.fill(0);
    answer
}
