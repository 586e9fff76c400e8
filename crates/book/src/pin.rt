// A pin: one literal more that has to hold, booked if the table can still be settled with it. By value, and over a lent book.
ghost use Rattle.std.specs.Prelude.{◌≡◌, ◌+◌, ◌<◌, ◌≤◌, [], ◌∷◌, ◌++◌, Ok, true, not, length};
ghost use Rattle.std.specs.List.{list_all};
ghost use Rattle.tables.specs.Sizes.{most_variables, most_entries};
ghost use Rattle.tables.specs.Check.{checked};
ghost use Rattle.rules.specs.Rounds.{outcome, pinned};
ghost use Rattle.rules.specs.Pins.{in_force, with_pin, out_of_range, book_after};
ghost use Rattle.rules.specs.Calls.{pin, contradiction, wiped};
ghost use Rattle.book.specs.Answers.{answered};

use calls::opening::{is_out_of_range, open};
use rounds::settle::settle;
use rules::book::Book;
use tables::numbers::Refusal;
use tables::sizes::{MOST_PINS, VARIABLE_NUMBERS};

/// The book with one pin more, in the first place past its length.
#[tactic(auto, using(crate::proofs::PinSteps::in_force_with), unfolding(rules::specs::Pins::with_pin))]
fn booked(book: Book, entry: i32) -> Book
    requires { book.held < 64 }
    ensures is { result ≡ with_pin book entry }
    ensures pins { in_force result ≡ in_force book ++ entry ∷ [] }
{
    let mut next = book;
    next.pins[next.held] = entry;
    next.held += 1;
    next
}

/// Whether the table can be settled with these pins.
#[tactic(auto, using(rounds::proofs::Outcomes::accepted_verdict, rounds::proofs::Outcomes::refused_verdict))]
fn trial(n: usize, table: &[i32], pins: &[i32], work: &mut [i32]) -> Result<(), Refusal>
    requires few { n ≤ most_variables }
    requires table { checked n table.now ≡ Ok tt }
    requires pins { list_all (λ x. not (out_of_range n x)) pins.now ≡ true }
    requires room { most_entries ≤ length work.old }
    ensures { result ≡ contradiction (outcome n (pinned table.now pins.now)) }
{
    let mut all = [0u16; VARIABLE_NUMBERS];
    let (all, _) = all.split_at_mut(n + 1);
    settle(n, table, pins, work, all)?;
    Ok(())
}

/// A pin, with the work buffer left as it comes.
fn tried(n: usize, table: &[i32], book: Book, work: &mut [i32], entry: i32) -> Result<Book, Refusal>
    ensures { result ≡ pin n table.now book (length work.old) entry }
{
    open(n, table, &book, work.len())?;
    if is_out_of_range(n, entry) {
        return Err(Refusal::OutOfRange);
    }
    if book.held >= MOST_PINS {
        return Err(Refusal::BookFull);
    }
    let next = booked(book, entry);
    trial(n, table, next.in_force(), work)?;
    Ok(next)
}

/// The book with one pin more. The work buffer is all zero afterwards.
#[tactic(auto, unfolding(rules::specs::Calls::wiped))]
pub fn book_pin(
    n: usize,
    table: &[i32],
    book: Book,
    work: &mut [i32],
    entry: i32,
) -> Result<Book, Refusal>
    ensures is { result ≡ pin n table.now book (length work.old) entry }
    ensures wiped { work.new ≡ wiped work.old }
{
    let answer = tried(n, table, book, work, entry);
    work.fill(0);
    answer
}

/// The same over a lent book: a refusal leaves it as it was found.
pub fn put(
    n: usize,
    table: &[i32],
    book: &mut Book,
    work: &mut [i32],
    entry: i32,
) -> Result<(), Refusal>
    ensures is { result ≡ answered (pin n table.now book.old (length work.old) entry) }
    ensures book { book.new ≡ book_after book.old (pin n table.now book.old (length work.old) entry) }
    ensures wiped { work.new ≡ wiped work.old }
{
    *book = book_pin(n, table, *book, work, entry)?;
    Ok(())
}
