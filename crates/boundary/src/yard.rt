// The lent table: its check, and the look-up of one clause.
ghost use Rattle.std.specs.Prelude.{◌≡◌, length};
ghost use Rattle.tables.specs.Check.{checked};
ghost use Rattle.tables.specs.LookUp.{look_start, look_up};
ghost use Rattle.boundary.specs.Answers.{told, plain_numbers};

use crate::answer::{Answer, nothing_else};
use tables::check::check;
use tables::lookup::{look_up, start_of};

/// The table check.
#[unsafe(no_mangle)]
pub extern "C" fn choptimber_check(n: usize, table: &[i32]) -> Answer
    ensures { result ≡ told (plain_numbers (checked n table.now)) }
{
    nothing_else(check(n, table))
}

/// A stretch of a lent table: the place of its first entry, and how many entries it has.
#[repr(C)]
#[derive(Clone, Copy)]
pub struct Stretch {
    pub from: usize,
    pub entries: usize,
}

/// The place where the look-up's stretch begins.
#[tactic(auto, unfolding(tables::specs::LookUp::look_start, tables::specs::LookUp::start_in))]
fn look_start(n: usize, table: &[i32], k: usize) -> usize
    ensures { result ≡ look_start n table.now k }
{
    match check(n, table) {
        Ok(()) => start_of(table, k),
        Err(_) => table.len(),
    }
}

/// The look-up of clause number k, from 0. A stretch crosses as its place and its length: a lent part of a slice cannot be
/// handed back.
#[unsafe(no_mangle)]
pub extern "C" fn choptimber_look_up(n: usize, table: &[i32], k: usize) -> Stretch
    ensures from { result.from ≡ look_start n table.now k }
    ensures entries { result.entries ≡ length (look_up n table.now k) }
{
    Stretch {
        from: look_start(n, table, k),
        entries: look_up(n, table, k).len(),
    }
}
