// The rounds by themselves, for a comparison of rounds: what a build, a fill, an ask and a pin settle before they go on.
ghost use Rattle.std.specs.Prelude.{◌≡◌, ◌+◌, ◌<◌, ◌≤◌, Ok, true, not, length, take, IfOk};
ghost use Rattle.std.specs.List.{list_all};
ghost use Rattle.tables.specs.Check.{checked};
ghost use Rattle.tables.specs.Numbers.{answer_number, answer_place};
ghost use Rattle.rules.specs.Pins.{out_of_range};
ghost use Rattle.rules.specs.Rounds.{outcome, pinned};
ghost use Rattle.rounds.specs.Rounds.{Settles};
ghost use Rattle.boundary.specs.Answers.{held_as};
ghost use Rattle.boundary.specs.Settled.{settle_verdict, judged, Leaves};

use crate::answer::{Answer, accepted, refused};
use crate::desk::{LentBook, held_as};
use calls::opening::open;
use rounds::settle::{Settled, settle};
use rules::book::Book;
use tables::numbers::Refusal;

/// The rounds over a table that passed the tests, with room for each variable and place 0.
fn run(
    n: usize,
    table: &[i32],
    pins: &[i32],
    row: &mut [i32],
    stands: &mut [u16],
) -> Result<Settled, Refusal>
    requires few { n ≤ 1024 }
    requires table { checked n table.now ≡ Ok tt }
    requires pins { list_all (λ x. not (out_of_range n x)) pins.now ≡ true }
    requires room { 16384 ≤ length row.old }
    requires stands { n < length stands.old }
    ensures { Settles (outcome n (pinned table.now pins.now)) result (take (n + 1) stands.new) row.new }
{
    let (all, _) = stands.split_at_mut(n + 1);
    settle(n, table, pins, row, all)
}

/// The rounds behind the tests that every call begins with.
fn settled(
    n: usize,
    table: &[i32],
    book: &Book,
    row: &mut [i32],
    stands: &mut [u16],
) -> Result<Settled, Refusal>
    ensures is { judged result ≡ settle_verdict n table.now book.now (length row.old) (length stands.old) }
    ensures settled { IfOk result (λ s. Leaves n table.now book.now s.rounds s.entries row.new stands.new) }
{
    open(n, table, book, row.len())?;
    if stands.len() <= n {
        return Err(Refusal::ShortBuffer(n + 1));
    }
    run(n, table, book.in_force(), row, stands)
}

/// Settles a table with the held pins; also returns the rounds, and how many entries of the row are then the settled table.
/// The other row says what each variable stands for: a literal's number, or 1 or 0 for a fixed one.
#[unsafe(no_mangle)]
pub extern "C" fn choptimber_settle(
    n: usize,
    table: &[i32],
    book: &LentBook,
    row: &mut [i32],
    stands: &mut [u16],
) -> Answer
    ensures number { result.number ≡ answer_number (settle_verdict n table.now (held_as book.now) (length row.old) (length stands.old)) }
    ensures place { result.place ≡ answer_place (settle_verdict n table.now (held_as book.now) (length row.old) (length stands.old)) }
    ensures refused { 0 < result.number → (result.first ≡ 0) × (result.second ≡ 0) }
    ensures settled { result.number ≡ 0 → Leaves n table.now (held_as book.now) result.first result.second row.new stands.new }
{
    match settled(n, table, &held_as(book), row, stands) {
        Ok(done) => accepted(done.rounds, done.entries),
        Err(why) => refused(why),
    }
}
