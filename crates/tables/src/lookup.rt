// The look-up of one clause: the caller's own stretch of the table.
ghost use Rattle.std.specs.Prelude.{◌≡◌, ◌+◌, ◌*◌, ◌≤◌, length, drop};
ghost use Rattle.tables.specs.LookUp.{clause_length, start_of, look_start, look_up};

use crate::check::check;

/// The length of the row's first clause, with its ending zero: the row's length where no zero ends it.
#[tactic(auto, unfolding(crate::specs::LookUp::clause_length))]
pub fn clause_length(row: &[i32]) -> usize
    ensures is { result ≡ clause_length row.now }
    ensures within { result ≤ length row.now }
{
    for (place, &entry) in row.iter().enumerate() {
        if entry == 0 {
            return place + 1;
        }
    }
    row.len()
}

/// Where clause number k, from 0, starts: at the row's end where there is no such clause.
#[tactic(auto, using(crate::proofs::LookUps::start_of_end, crate::proofs::LookUps::start_of_turn), unfolding(crate::specs::LookUp::start_of))]
pub fn start_of(row: &[i32], k: usize) -> usize
    ensures is { result ≡ start_of k row.now }
    ensures within { result ≤ length row.now }
{
    let mut start = 0;
    for _before in 0..k {
        if start == row.len() {
            return start;
        }
        start += clause_length(row.split_at(start).1);
    }
    start
}

/// Clause number k, from 0, with its ending zero: that stretch of the lent table itself. For no such clause, or a table that
/// the check refuses, the empty stretch at the table's end.
#[tactic(auto, unfolding(crate::specs::LookUp::look_up, crate::specs::LookUp::look_start, crate::specs::LookUp::start_in))]
pub fn look_up(n: usize, table: &[i32], k: usize) -> &[i32]
    ensures is { result.now ≡ look_up n table.now k }
    ensures there { result.ref_ptr ≡ (table.entry.ref_ptr.0, look_start n table.now k * 4 + table.entry.ref_ptr.1) }
{
    let start = match check(n, table) {
        Ok(()) => start_of(table, k),
        Err(_) => table.len(),
    };
    let rest = &table[start..];
    &rest[..clause_length(rest)]
}
