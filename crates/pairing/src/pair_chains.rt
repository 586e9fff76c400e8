// The clauses of two literals of a row, chained by their first literal, so that one of them is found without a look at the
// others. A chain's cell holds one more than the place where a clause begins, or 0 at the chain's end.
ghost use Rattle.std.specs.Prelude.{◌≡◌, ◌+◌, ◌<◌, ◌≤◌, ◌^◌, ◌∷◌, ◌&&◌, [], map, length, get_or, set, replicate};
ghost use Rattle.std.specs.List.{All};
ghost use Rattle.ways.specs.Ways.{among};
ghost use Rattle.tables.specs.Sizes.{most_entries};
ghost use Rattle.tables.specs.Literal.{literal};
ghost use Rattle.tables.specs.Clause.{clauses};
ghost use Rattle.pairing.specs.PairChains.{Indexed, Indexed-prop};
ghost use Rattle.pairing.specs.Pairs.{paired_in};

use tables::literal::{literal, opposite};
use tables::rows::clauses_of;

/// A row with its chains.
#[derive(Drop)]
pub struct PairIndex<'a> {
    pub row: &'a [i32],
    head: &'a [u16],
    next: &'a [u16],
    ghost indexed: { Indexed row.now head.now next.now } by { Indexed-prop row.now head.now next.now },
    ghost room: { length row.now ≤ length next.now },
}

/// Puts the clause that begins at a place in front of the chain of its first literal.
fn link(head: &mut [u16], next: &mut [u16], first: usize, start: usize)
    requires first_in { first < length head.old }
    requires start_in { start < length next.old }
    requires fits { start + 1 < 2 ^ 16 }
    ensures heads { head.new ≡ set head.old first (start + 1) }
    ensures nexts { next.new ≡ set next.old start (get_or head.old first 0) }
{
    next[start] = head[first];
    head[first] = (start + 1) as u16;
}

/// The cell at a place: there is no chain beyond the last.
fn cell_at(cells: &[u16], place: usize) -> usize
    ensures { result ≡ get_or cells.now place 0 }
{
    match cells.get(place) {
        Some(&cell) => usize::from(cell),
        None => 0,
    }
}

impl<'a> PairIndex<'a> {
    /// Chains the clauses of two literals, in lent memory that has no chain yet.
    #[tactic(auto, using(crate::proofs::ChainSteps::chain_begins, crate::proofs::ChainSteps::chain_ends))]
    pub fn new(row: &'a [i32], head: &'a mut [u16], next: &'a mut [u16]) -> PairIndex<'a>
        requires inside { All (λ e. literal e < length head.old) row.now }
        requires none { head.old ≡ replicate (length head.old) 0 }
        requires room { length row.now ≤ length next.old }
        requires short { length row.now ≤ most_entries }
        ensures { result.row.now ≡ row.now }
    {
        let mut start = 0;
        for clause in clauses_of(row) {
            if clause.len() == 2 {
                link(head, next, literal(clause[0]), start);
            }
            start += clause.len() + 1;
        }
        PairIndex { row, head, next }
    }
}

impl PairIndex<'_> {
    /// Whether the row has the clause of two literals.
    fn has_clause(&self, x: usize, y: usize) -> bool
        ensures { result ≡ among (x ∷ y ∷ []) (clauses self.now.row.now) }
    {
        let mut cell = cell_at(self.head, x);
        while cell > 0 {
            if y == literal(self.row[cell]) {
                return true;
            }
            cell = cell_at(self.next, cell - 1);
        }
        false
    }

    /// Whether a clause makes a pair in the row.
    pub fn is_pair(&self, clause: &[i32]) -> bool
        ensures { result ≡ paired_in (clauses self.now.row.now) (map literal clause.now) }
    {
        clause.len() == 2
            && self.has_clause(opposite(literal(clause[0])), opposite(literal(clause[1])))
    }
}
