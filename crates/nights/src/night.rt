// A run of pins and take-backs from the empty book. Whatever the run, the pins in force at its end are those that a plain stack
// of the accepted ones holds: said of the book that the code returns.
ghost use Rattle.std.specs.Prelude.{◌≡◌, length, map};
ghost use Rattle.rules.specs.Calls.{wiped};
ghost use Rattle.rules.specs.Pins.{in_force, book_after};
ghost use Rattle.book.specs.Answers.{answered};
ghost use Rattle.demands.specs.Night.{answer, after};
ghost use Rattle.nights.specs.Moves.{as_move};

use book::pin::put;
use book::takeback::take_back;
use rules::book::Book;
use tables::numbers::Refusal;

/// A move of the desk.
#[derive(Clone, Copy, Debug, PartialEq, Eq)]
pub enum Move {
    /// A pin of this entry.
    Pin(i32),
    /// A take-back.
    Back,
}

/// Makes one move over a lent book: a refusal leaves the book as it was found. The work buffer is all zero afterwards.
#[tactic(auto, unfolding(demands::specs::Night::answer, rules::specs::Calls::wiped))]
pub fn make(
    n: usize,
    table: &[i32],
    book: &mut Book,
    work: &mut [i32],
    made: Move,
) -> Result<(), Refusal>
    ensures is { result ≡ answered (answer book.old (as_move n table.now (length work.old) made)) }
    ensures book { book.new ≡ book_after book.old (answer book.old (as_move n table.now (length work.old) made)) }
    ensures wiped { work.new ≡ wiped work.old }
{
    match made {
        Move::Pin(entry) => put(n, table, book, work, entry),
        Move::Back => {
            work.fill(0);
            take_back(book)
        }
    }
}

/// Makes a run of moves from the empty book, each with this table; what is refused changes nothing. The work buffer is all zero
/// afterwards.
#[tactic(auto, unfolding(rules::specs::Calls::wiped))]
pub fn night(n: usize, table: &[i32], moves: &[Move], work: &mut [i32]) -> Book
    ensures book { result ≡ (after (map (as_move n table.now (length work.old)) moves.now)).book }
    ensures stack { in_force result ≡ (after (map (as_move n table.now (length work.old)) moves.now)).stack }
    ensures wiped { work.new ≡ wiped work.old }
{
    let mut book = Book::new();
    for &made in moves {
        let _ = make(n, table, &mut book, work, made);
    }
    work.fill(0);
    book
}
