// The clauses of two literals that an and-form has beside its anchor: the opposite of the output with the opposite of each
// other literal.
ghost use Rattle.std.specs.Prelude.{◌≡◌, ◌≢◌, ◌∷◌, []};
ghost use Rattle.ways.specs.Ways.{among};
ghost use Rattle.tables.specs.Clause.{clauses};
ghost use Rattle.rules.specs.Patterns.{side};

use crate::index::{Index, key_of_two};
use rules::sides::side;
use tables::clause::is_clause_of;

/// Whether the row has the clause of two literals: a walk along the chain of its key.
fn has_clause(index: &Index, x: usize, y: usize) -> bool
    ensures { result ≡ among (x ∷ y ∷ []) (clauses index.now.row.now) }
{
    index
        .chain(key_of_two(x, y))
        .any(|clause| is_clause_of(clause, x, y))
}

/// Whether the row has the clause of the opposites of two literals.
pub fn has_side(index: &Index, output: usize, other: usize) -> bool
    requires { output ≢ other }
    ensures { result ≡ among (side output other) (clauses index.now.row.now) }
{
    let (x, y) = side(output, other);
    has_clause(index, x, y)
}
