// What build, fill and ask begin with: the table is settled with its pins, and the gates are taken.
ghost use Rattle.std.specs.Prelude.{◌≡◌, ◌+◌, ◌≤◌, Ok, true, not, length};
ghost use Rattle.std.specs.List.{list_all};
ghost use Rattle.tables.specs.Check.{checked};
ghost use Rattle.rules.specs.Rounds.{outcome, pinned};
ghost use Rattle.rules.specs.Pins.{out_of_range};
ghost use Rattle.builder.specs.Evenings.{Comes, Begins};

use calls::opening::open_book;
use gates::site::Site;
use listing::evening::Evening;
use rounds::settle::settle;
use rules::book::Book;
use tables::numbers::Refusal;
use taking::take::take_gates;

/// Settles a table with its pins in the work buffer, and takes the gates of the settled table.
pub fn settle_evening<'a>(
    n: usize,
    table: &[i32],
    pins: &[i32],
    work: &'a mut [i32],
    stands: &'a mut [u16],
    sites: &'a mut [Site],
) -> Result<Evening<'a>, Refusal>
    requires table { checked n table.now ≡ Ok tt }
    requires pins { list_all (λ x. not (out_of_range n x)) pins.now ≡ true }
    requires work { 16384 ≤ length work.old }
    requires stands { length stands.old ≡ n + 1 }
    requires sites { n ≤ length sites.old }
    ensures { Comes n (outcome n (pinned table.now pins.now)) result }
{
    let settled = settle(n, table, pins, work, stands)?;
    let row = work.split_at(settled.entries).0;
    Ok(Evening {
        n,
        rounds: settled.rounds,
        stands,
        taken: take_gates(n, row, sites),
    })
}

/// What build, fill and ask begin with behind the table check: the tests of the work buffer and the book, and the evening of
/// the pins in force. The stands and the sites are room for it.
pub fn begin_evening<'a>(
    n: usize,
    table: &[i32],
    book: &Book,
    work: &'a mut [i32],
    stands: &'a mut [u16],
    sites: &'a mut [Site],
) -> Result<Evening<'a>, Refusal>
    requires table { checked n table.now ≡ Ok tt }
    requires stands { 1025 ≤ length stands.old }
    requires sites { 1024 ≤ length sites.old }
    ensures { Begins n table.now book.now (length work.old) result }
{
    open_book(n, book, work.len())?;
    let (stands, _) = stands.split_at_mut(n + 1);
    settle_evening(n, table, book.in_force(), work, stands, sites)
}
