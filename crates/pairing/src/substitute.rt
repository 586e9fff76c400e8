// Substitution: each literal of a row's clauses is replaced by the one that it stands for.
ghost use Rattle.std.specs.Prelude.{◌≡◌, ◌<◌, ℕ, pos, map, length, get_or};
ghost use Rattle.std.specs.List.{All};
ghost use Rattle.tables.specs.Literal.{literal, var};
ghost use Rattle.tables.specs.Clause.{clauses};
ghost use Rattle.rules.specs.Pairs.{replace};
ghost use Rattle.pairing.specs.Substitute.{Live, substituted};

use crate::stands::Stands;
use tables::literal::{entry, literal};

/// What an entry is replaced by: a zero stays.
#[tactic(auto, using(crate::proofs::StandSteps::replace_coded))]
fn substituted(stands: &Stands, old: i32) -> i32
    requires inside { var (literal old) < length stands.now.row.now }
    ensures { result ≡ substituted stands.now.row.now old }
{
    if old == 0 {
        return old;
    }
    entry(stands.replacement(literal(old)))
}

/// Replaces each literal of a row's clauses. None of them may stand for a value.
#[tactic(auto, using(crate::proofs::SubstituteSteps::substitute_turns, crate::proofs::SubstituteSteps::zero_stays))]
pub fn substitute(row: &mut [i32], stands: &Stands)
    requires inside { All (λ e. var (literal e) < length stands.now.row.now) row.old }
    requires live { All (Live stands.now.row.now) row.old }
    ensures is { clauses row.new ≡ map (map (replace stands.now.row.now)) (clauses row.old) }
    ensures still_inside { All (λ e. var (literal e) < length stands.now.row.now) row.new }
    ensures zeros { (k : ℕ) → get_or row.old k (pos 0) ≡ pos 0 → get_or row.new k (pos 0) ≡ pos 0 }
{
    for place in row.iter_mut() {
        *place = substituted(stands, *place);
    }
}
