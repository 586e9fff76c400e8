// The calls over a settled evening: build, fill and ask.
ghost use Rattle.std.specs.Prelude.{◌≡◌, length};
ghost use Rattle.rules.specs.Calls.{build, build_listing, fill_verdict, fill_values, ask, wiped, built_numbers, asked_numbers};
ghost use Rattle.boundary.specs.Answers.{told, plain_numbers, held_as};

use crate::answer::{Answer, accepted, nothing_else, refused};
use crate::desk::{LentBook, held_as};
use builder::ask::ask;
use builder::build::build;
use builder::fill::fill;

/// Builds, and prints the listing into a lent buffer; also returns the rounds and the bytes. The work buffer is all zero
/// afterwards.
#[tactic(auto, unfolding(crate::specs::Answers::told, crate::specs::Answers::accepted, crate::specs::Answers::refused, rules::specs::Calls::built_numbers, rules::specs::Calls::numbers, rules::specs::Calls::returned))]
#[unsafe(no_mangle)]
pub extern "C" fn choptimber_build(
    n: usize,
    table: &[i32],
    book: &LentBook,
    work: &mut [i32],
    out: &mut [u8],
) -> Answer
    ensures is { result ≡ told (built_numbers (build n table.now (held_as book.now) (length work.old) (length out.old))) }
    ensures listing { out.new ≡ build_listing n table.now (held_as book.now) (length work.old) out.old }
    ensures wiped { work.new ≡ wiped work.old }
{
    match build(n, table, &held_as(book), work, out) {
        Ok(built) => accepted(built.rounds, built.bytes),
        Err(why) => refused(why),
    }
}

/// Fills in all variables from values for the free ones. The work buffer is all zero afterwards.
#[unsafe(no_mangle)]
pub extern "C" fn choptimber_fill(
    n: usize,
    table: &[i32],
    book: &LentBook,
    work: &mut [i32],
    given: &[u8],
    values: &mut [u8],
) -> Answer
    ensures is { result ≡ told (plain_numbers (fill_verdict n table.now (held_as book.now) (length work.old) given.now (length values.old))) }
    ensures values { values.new ≡ fill_values n table.now (held_as book.now) (length work.old) given.now values.old }
    ensures wiped { work.new ≡ wiped work.old }
{
    nothing_else(fill(n, table, &held_as(book), work, given, values))
}

/// Asks for one variable; also returns its value. The work buffer is all zero afterwards.
#[tactic(auto, unfolding(crate::specs::Answers::told, crate::specs::Answers::accepted, crate::specs::Answers::refused, rules::specs::Calls::asked_numbers, rules::specs::Calls::numbers, rules::specs::Calls::returned, rules::specs::Fill::bit))]
#[unsafe(no_mangle)]
pub extern "C" fn choptimber_ask(
    n: usize,
    table: &[i32],
    book: &LentBook,
    work: &mut [i32],
    given: &[u8],
    variable: usize,
) -> Answer
    ensures is { result ≡ told (asked_numbers (ask n table.now (held_as book.now) (length work.old) given.now variable)) }
    ensures wiped { work.new ≡ wiped work.old }
{
    match ask(n, table, &held_as(book), work, given, variable) {
        Ok(value) => accepted(usize::from(value), 0),
        Err(why) => refused(why),
    }
}
