// The take-back: the last pin put goes. It reads the book only.
ghost use Rattle.std.specs.Prelude.{◌≡◌};
ghost use Rattle.rules.specs.Pins.{take_back, book_after};
ghost use Rattle.book.specs.Answers.{answered};

use calls::opening::book_length;
use rules::book::Book;
use tables::numbers::Refusal;

/// The book without its last pin; the freed place is 0.
#[tactic(auto, unfolding(rules::specs::Pins::take_back, rules::specs::Pins::without_last, rules::specs::Pins::book_long, tables::specs::Numbers::refuse, tables::specs::Numbers::first_refusal))]
pub fn without_last_pin(book: Book) -> Result<Book, Refusal>
    ensures { result ≡ take_back book }
{
    if book.held == 0 {
        return Err(Refusal::NothingHeld);
    }
    book_length(&book)?;
    let mut left = book;
    left.held -= 1;
    left.pins[left.held] = 0;
    Ok(left)
}

/// The same over a lent book: a refusal leaves it as it was found.
pub fn take_back(book: &mut Book) -> Result<(), Refusal>
    ensures is { result ≡ answered (take_back book.old) }
    ensures book { book.new ≡ book_after book.old (take_back book.old) }
{
    *book = without_last_pin(*book)?;
    Ok(())
}
