// The chains of a row's clauses: a clause is looked for among those of its key alone. The row is lent to each call, since it
// grows in between.
ghost use Rattle.std.specs.Prelude.{◌≡◌, ◌+◌, ◌-◌, ◌<◌, ◌≤◌, ◌^◌, ◌++◌, ◌∷◌, [], pos, false, map, length, get_or, set, replicate};
ghost use Rattle.ways.specs.Ways.{has, same, among};
ghost use Rattle.tables.specs.Literal.{literal};
ghost use Rattle.tables.specs.Clause.{clauses};
ghost use Rattle.chains.specs.Links.{Starts, clause_at, Chained};

use crate::key::{KEYS, key_of};
use tables::clause::is_same;
use tables::rows::clauses_of;

/// The chains of the clauses of a row's first entries. A cell holds one more than the place where a clause starts, or 0 at the
/// chain's end.
#[derive(Drop)]
pub struct Chains<'a> {
    /// For each key the cell of its latest clause.
    heads: &'a mut [u16],
    /// For each place where a clause starts the cell of the clause of its key before it.
    links: &'a mut [u16],
    /// How many entries of the row they cover: what is behind them had no room.
    covered: usize,
    ghost keys: { length heads.now ≡ 2048 },
    ghost reach: { length links.now < 2 ^ 16 },
}

/// Puts the clause that starts at a place in front of the chain of its key.
fn link(heads: &mut [u16], links: &mut [u16], key: usize, start: usize)
    requires key_in { key < length heads.old }
    requires start_in { start < length links.old }
    requires fits { start + 1 < 2 ^ 16 }
    ensures heads { heads.new ≡ set heads.old key (start + 1) }
    ensures links { links.new ≡ set links.old start (get_or heads.old key 0) }
{
    links[start] = heads[key];
    heads[key] = (start + 1) as u16;
}

/// The cell at a place: there is no chain beyond the last.
fn cell_at(cells: &[u16], place: usize) -> usize
    ensures { result ≡ get_or cells.now place 0 }
{
    match cells.get(place) {
        Some(&cell) => usize::from(cell),
        None => 0,
    }
}

/// Whether the clause that starts at a place of the row is this one.
fn stands_at(clause: &[i32], row: &[i32], at: usize) -> bool
    requires inside { at ≤ length row.now }
    requires starts { Starts row.now at }
    ensures { result ≡ same (map literal clause.now) (clause_at row.now at) }
{
    match clauses_of(row.split_at(at).1).next() {
        Some(other) => is_same(clause, other),
        None => false,
    }
}

/// Whether the clause is one of a chained row.
fn is_chained(clause: &[i32], row: &[i32], heads: &[u16], links: &[u16]) -> bool
    requires { Chained row.now heads.now links.now }
    ensures { result ≡ among (map literal clause.now) (clauses row.now) }
{
    let mut cell = cell_at(heads, key_of(clause));
    while cell > 0 {
        if stands_at(clause, row, cell - 1) {
            return true;
        }
        cell = cell_at(links, cell - 1);
    }
    false
}

/// Whether the clause is one of a row that has no chains.
fn is_one_of(clause: &[i32], row: &[i32]) -> bool
    ensures { result ≡ among (map literal clause.now) (clauses row.now) }
{
    clauses_of(row).any(|other| is_same(clause, other))
}

impl<'a> Chains<'a> {
    ghost use Rattle.chains.specs.Follow.{Follows};

    /// The chains of a row that has no entry yet, in lent memory.
    pub fn new(heads: &'a mut [u16], links: &'a mut [u16]) -> Chains<'a>
        requires keys { length heads.old ≡ KEYS }
        requires none { heads.old ≡ replicate (length heads.old) 0 }
        requires reach { length links.old < 2 ^ 16 }
        ensures { Follows [] result }
    {
        Chains {
            heads,
            links,
            covered: 0,
        }
    }
}

impl Chains<'_> {
    ghost use Rattle.chains.specs.Follow.{Follows};

    /// Whether the clause, which has no ending zero here, is one of the row.
    pub fn has(&self, clause: &[i32], row: &[i32]) -> bool
        requires { Follows row.now self.now }
        ensures { result ≡ among (map literal clause.now) (clauses row.now) }
    {
        let (chained, others) = row.split_at(self.covered);
        is_chained(clause, chained, self.heads, self.links) || is_one_of(clause, others)
    }

    /// Chains a clause that is written behind the row, with a zero behind it, if the whole row is chained and there is room.
    pub fn add(&mut self, row: &[i32], clause: &[i32])
        requires follows { Follows row.now self.old }
        requires whole { has 0 (map literal clause.now) ≡ false }
        ensures follows { Follows (row.now ++ (clause.now ++ (pos 0 ∷ []))) self.new }
        ensures covers { self.old.covered ≡ length row.now → length row.now < length self.old.links.now → self.new.covered ≡ length row.now + length clause.now + 1 }
    {
        let start = row.len();
        if self.covered == start && start < self.links.len() {
            link(self.heads, self.links, key_of(clause), start);
            self.covered = start + clause.len() + 1;
        }
    }
}
