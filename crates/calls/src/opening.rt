// The tests that build, fill, ask and pin begin with, in the order of the rules: 2 and 3 over the table; 9; 6 if the lent
// book's length is above 64; 5 if a held pin is 0 or beyond n.
ghost use Rattle.std.specs.Prelude.{◌≡◌, [], ◌∷◌};
ghost use Rattle.std.specs.List.{list_any};
ghost use Rattle.tables.specs.Numbers.{first_refusal};
ghost use Rattle.tables.specs.Check.{checked};
ghost use Rattle.rules.specs.Pins.{out_of_range, book_long};
ghost use Rattle.rules.specs.Calls.{work_short, held_bad};

use rules::book::Book;
use tables::check::check;
use tables::numbers::Refusal;
use tables::sizes::{MOST_PINS, WORK_ROOM};

/// Whether a pin is 0 or beyond n.
#[tactic(auto, unfolding(rules::specs::Pins::out_of_range))]
pub fn is_out_of_range(n: usize, pin: i32) -> bool
    ensures { result ≡ out_of_range n pin }
{
    pin == 0 || pin.unsigned_abs() as usize > n
}

/// Whether the work buffer has its room.
#[tactic(auto, unfolding(rules::specs::Calls::work_short, tables::specs::Numbers::refuse))]
pub fn work_room(room: usize) -> Result<(), Refusal>
    ensures { result ≡ work_short room }
{
    if room < WORK_ROOM {
        return Err(Refusal::ShortWork);
    }
    Ok(())
}

/// Whether the book's length is one.
#[tactic(auto, unfolding(rules::specs::Pins::book_long, tables::specs::Numbers::refuse))]
pub fn book_length(book: &Book) -> Result<(), Refusal>
    ensures { result ≡ book_long book.now }
{
    if book.held > MOST_PINS {
        return Err(Refusal::BookFull);
    }
    Ok(())
}

/// Whether some pin is out of range.
pub fn some_out_of_range(n: usize, pins: &[i32]) -> bool
    ensures { result ≡ list_any (out_of_range n) pins.now }
{
    pins.iter().any(|&pin| is_out_of_range(n, pin))
}

/// Whether each held pin is in range.
#[tactic(auto, unfolding(rules::specs::Calls::held_bad, tables::specs::Numbers::refuse))]
pub fn pins_in_range(n: usize, book: &Book) -> Result<(), Refusal>
    ensures { result ≡ held_bad n book.now }
{
    if some_out_of_range(n, book.in_force()) {
        return Err(Refusal::OutOfRange);
    }
    Ok(())
}

/// What a call tests behind the table: the work buffer's room, the book's length, the held pins.
#[tactic(auto, unfolding(tables::specs::Numbers::first_refusal))]
pub fn open_book(n: usize, book: &Book, room: usize) -> Result<(), Refusal>
    ensures { result ≡ first_refusal (work_short room ∷ book_long book.now ∷ held_bad n book.now ∷ []) }
{
    work_room(room)?;
    book_length(book)?;
    pins_in_range(n, book)
}

/// The opening of a call.
#[tactic(auto, unfolding(tables::specs::Numbers::first_refusal))]
pub fn open(n: usize, table: &[i32], book: &Book, room: usize) -> Result<(), Refusal>
    ensures { result ≡ first_refusal (checked n table.now ∷ work_short room ∷ book_long book.now ∷ held_bad n book.now ∷ []) }
{
    check(n, table)?;
    open_book(n, book, room)
}
