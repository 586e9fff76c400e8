// Pairs: two clauses of two literals, the one of the other's opposites, say that the sides of either are opposites.
ghost use Rattle.std.specs.Prelude.{◌≡◌, ◌<◌, ◌≤◌, map, length, eqb, not};
ghost use Rattle.std.specs.List.{All, fold, list_any};
ghost use Rattle.tables.specs.Sizes.{most_entries};
ghost use Rattle.tables.specs.Literal.{literal, var};
ghost use Rattle.tables.specs.Clause.{clauses};
ghost use Rattle.rules.specs.Pairs.{pairs, torn, join};
ghost use Rattle.pairing.specs.Pairs.{found};

use crate::pair_chains::PairIndex;
use crate::stands::Stands;
use tables::literal::literal;
use tables::rows::clauses_of;
use tables::sizes::{LITERAL_NUMBERS, MOST_ENTRIES};

/// What a round's search for pairs comes to.
#[derive(Clone, Copy, Debug, PartialEq, Eq)]
pub enum Pairs {
    /// No clause has its opposite in the table.
    NoPair,
    /// A literal would equal its opposite.
    Torn,
    /// Each variable stands for the literal of the lowest variable of its class.
    Joined,
}

/// Whether the sides of a pair, which are opposites, stand for one literal.
#[tactic(auto, using(crate::proofs::StandSteps::two_sides), unfolding(rules::specs::Pairs::torn))]
fn is_torn(stands: &Stands, clause: &[i32]) -> bool
    requires { length clause.now ≡ 2 }
    ensures { result ≡ torn stands.now.row.now (map literal clause.now) }
{
    stands.replacement(literal(clause[0])) == stands.replacement(literal(clause[1]))
}

/// Joins each pair of the row: whether there is one.
fn join_each(index: &PairIndex, stands: &mut Stands) -> bool
    requires inside { All (λ e. var (literal e) < length stands.old.row.now) index.now.row.now }
    ensures leaders { stands.new.row.now ≡ fold join stands.old.row.now (pairs (clauses index.now.row.now)) }
    ensures any { result ≡ not (eqb (length (pairs (clauses index.now.row.now))) 0) }
{
    let mut any = false;
    for clause in clauses_of(index.row) {
        if index.is_pair(clause) {
            stands.join(clause);
            any = true;
        }
    }
    any
}

/// Whether a pair of the row is torn.
fn any_torn(index: &PairIndex, stands: &Stands) -> bool
    ensures { result ≡ list_any (torn stands.now.row.now) (pairs (clauses index.now.row.now)) }
{
    clauses_of(index.row).any(|clause| index.is_pair(clause) && is_torn(stands, clause))
}

/// Joins the pairs of a row: each variable then stands for the literal of the lowest variable of its class.
pub fn join_pairs(row: &[i32], stands: &mut Stands) -> Pairs
    requires inside { All (λ e. var (literal e) < length stands.old.row.now) row.now }
    requires short { length row.now ≤ most_entries }
    ensures leaders { stands.new.row.now ≡ fold join stands.old.row.now (pairs (clauses row.now)) }
    ensures found { result ≡ found stands.new.row.now (pairs (clauses row.now)) }
{
    let mut head = [0; LITERAL_NUMBERS];
    let mut next = [0; MOST_ENTRIES];
    let index = PairIndex::new(row, &mut head, &mut next);
    if !join_each(&index, stands) {
        return Pairs::NoPair;
    }
    if any_torn(&index, stands) {
        Pairs::Torn
    } else {
        Pairs::Joined
    }
}
