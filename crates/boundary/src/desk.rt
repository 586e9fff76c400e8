// The pin book, as it crosses: a pin and a take-back over a lent book.
ghost use Rattle.std.specs.Prelude.{◌≡◌, length};
ghost use Rattle.rules.specs.Pins.{take_back, book_after};
ghost use Rattle.rules.specs.Calls.{pin, wiped, booked_numbers};
ghost use Rattle.boundary.specs.Answers.{told, held_as, lent_as};

use crate::answer::{Answer, nothing_else};
use book::pin::put;
use book::takeback::take_back;
use rules::book::Book;

/// The pin book as it crosses: 64 places, and how many of them are held. The length may be no length.
#[repr(C)]
#[derive(Clone, Copy)]
pub struct LentBook {
    pub pins: [i32; 64],
    pub held: usize,
}

/// The book as the calls take it.
#[tactic(auto, unfolding(crate::specs::Answers::held_as))]
pub fn held_as(book: &LentBook) -> Book
    ensures { result ≡ held_as book.now }
{
    Book {
        pins: book.pins,
        held: book.held,
    }
}

/// The book as it crosses.
#[tactic(auto, unfolding(crate::specs::Answers::lent_as))]
fn lent_as(book: Book) -> LentBook
    ensures { result ≡ lent_as book }
{
    let pins = book.pins;
    LentBook {
        pins,
        held: book.held,
    }
}

/// Puts a pin. The work buffer is all zero afterwards, and a refusal leaves the book as it was found.
#[tactic(auto, using(crate::proofs::Steps::answered_numbers))]
#[unsafe(no_mangle)]
pub extern "C" fn choptimber_pin(
    n: usize,
    table: &[i32],
    book: &mut LentBook,
    work: &mut [i32],
    entry: i32,
) -> Answer
    ensures is { result ≡ told (booked_numbers (pin n table.now (held_as book.old) (length work.old) entry)) }
    ensures book { book.new ≡ lent_as (book_after (held_as book.old) (pin n table.now (held_as book.old) (length work.old) entry)) }
    ensures wiped { work.new ≡ wiped work.old }
{
    let mut held = held_as(book);
    let answer = put(n, table, &mut held, work, entry);
    *book = lent_as(held);
    nothing_else(answer)
}

/// Takes the last pin back. A refusal leaves the book as it was found.
#[tactic(auto, using(crate::proofs::Steps::answered_numbers))]
#[unsafe(no_mangle)]
pub extern "C" fn choptimber_take_back(book: &mut LentBook) -> Answer
    ensures is { result ≡ told (booked_numbers (take_back (held_as book.old))) }
    ensures book { book.new ≡ lent_as (book_after (held_as book.old) (take_back (held_as book.old))) }
{
    let mut left = held_as(book);
    let answer = take_back(&mut left);
    *book = lent_as(left);
    nothing_else(answer)
}
