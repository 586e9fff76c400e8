// Cleaning, in place: void and satisfied clauses go, the others are tidied, and the first of equal clauses is kept.
ghost use Rattle.std.specs.Prelude.{◌≡◌, ◌+◌, ◌<◌, ◌≤◌, ◌||◌, [], false, map, length, take, drop, slice_range};
ghost use Rattle.std.specs.List.{list_any};
ghost use Rattle.ways.specs.Ways.{has, among};
ghost use Rattle.tables.specs.Literal.{literal};
ghost use Rattle.tables.specs.Clause.{clauses};
ghost use Rattle.rules.specs.Forced.{marked};
ghost use Rattle.rules.specs.Clean.{clean_step, clean};
ghost use Rattle.cleaning.specs.Neighbours.{opposed_from};
ghost use Rattle.chains.specs.Ended.{Ended};
ghost use Rattle.chains.specs.Follow.{Follows};

use crate::tidy::tidy;
use chains::chain::Chains;
use chains::key::KEYS;
use rules::marks::is_marked;
use tables::literal::{literal, opposite};
use tables::sizes::MOST_ENTRIES;

/// Whether a literal of the clause is forced.
fn has_forced(clause: &[i32], marks: &[u8]) -> bool
    ensures { result ≡ list_any (marked marks.now) (map literal clause.now) }
{
    clause
        .iter()
        .map(|&entry| literal(entry))
        .any(|l| is_marked(marks, l))
}

/// Whether a literal of the clause stands right behind its opposite. No entry is of the opposite of 0.
#[tactic(auto, unfolding(crate::specs::Neighbours::opposed_from))]
fn is_opposed(clause: &[i32]) -> bool
    ensures { result ≡ opposed_from 0 (map literal clause.now) }
{
    let mut before = 0;
    for &entry in clause {
        if opposite(before) == literal(entry) {
            return true;
        }
        before = literal(entry);
    }
    false
}

/// Whether a tidied clause goes: void, or the same as one of the row.
fn is_needless(clause: &[i32], row: &[i32], chains: &Chains) -> bool
    requires { Follows row.now chains.now }
    ensures { result ≡ (opposed_from 0 (map literal clause.now) || among (map literal clause.now) (clauses row.now)) }
{
    is_opposed(clause) || chains.has(clause, row)
}

/// Cleans the clause of the entries from `start` up to `end`, where its zero is, and writes it behind the first `kept`
/// entries if it stays; how many are kept then. The chains are those of the kept entries, before and after.
fn clean_clause(
    row: &mut [i32],
    kept: usize,
    start: usize,
    end: usize,
    marks: &[u8],
    chains: &mut Chains,
) -> usize
    requires behind { kept ≤ start }
    requires within { start ≤ end }
    requires zero { end < length row.old }
    requires ended { Ended (take kept row.old) }
    requires chained { Follows (take kept row.old) chains.old }
    requires one { has 0 (map literal (slice_range row.old start end)) ≡ false }
    ensures cleaned { clauses (take result row.new) ≡ clean_step marks.now (clauses (take kept row.old)) (map literal (slice_range row.old start end)) }
    ensures ended { Ended (take result row.new) }
    ensures chained { Follows (take result row.new) chains.new }
    ensures within { result ≤ end + 1 }
    ensures behind { drop (end + 1) row.new ≡ drop (end + 1) row.old }
{
    if has_forced(&row[start..end], marks) {
        return kept;
    }
    let (front, rest) = row.split_at_mut(kept);
    let len = tidy(rest, start - kept, end - start, marks);
    let tidied = rest.split_at(len).0;
    if is_needless(tidied, front, chains) {
        return kept;
    }
    chains.add(front, tidied);
    rest[len] = 0;
    kept + len + 1
}

/// Cleans the clauses of a row in place, by chains that have no clause yet; how many entries the cleaned ones have.
fn clean_each(row: &mut [i32], marks: &[u8], chains: &mut Chains) -> usize
    requires { Follows [] chains.old }
    ensures cleaned { clauses (take result row.new) ≡ clean marks.now (clauses row.old) }
    ensures ended { Ended (take result row.new) }
    ensures within { result ≤ length row.old }
{
    let mut kept = 0;
    let mut start = 0;
    // By index: the row is written while it is read.
    for end in 0..row.len() {
        if row[end] == 0 {
            kept = clean_clause(row, kept, start, end, marks, chains);
            start = end + 1;
        }
    }
    kept
}

/// Cleans the clauses of a row in place; how many entries the cleaned ones have at its front, each clause with its zero.
pub fn clean(row: &mut [i32], marks: &[u8]) -> usize
    ensures cleaned { clauses (take result row.new) ≡ clean marks.now (clauses row.old) }
    ensures ended { Ended (take result row.new) }
    ensures within { result ≤ length row.old }
{
    let mut heads = [0; KEYS];
    let mut links = [0; MOST_ENTRIES];
    clean_each(row, marks, &mut Chains::new(&mut heads, &mut links))
}
