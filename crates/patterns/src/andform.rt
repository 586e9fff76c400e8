// And-forms: whether all of one's clauses stand in the row.
ghost use Rattle.std.specs.Prelude.{◌≡◌, ◌||◌, map, eqb};
ghost use mathlib.Core.List.{Memᴰ};
ghost use Rattle.std.specs.List.{list_all};
ghost use Rattle.ways.specs.Ways.{among};
ghost use Rattle.tables.specs.Literal.{literal};
ghost use Rattle.tables.specs.Clause.{clauses};
ghost use Rattle.rules.specs.Patterns.{and_form, found, side};

use crate::index::Index;
use crate::partners::has_side;
use tables::literal::literal;

/// Whether a literal of the anchor is the output, or has its clause with the output in the row.
fn is_met(index: &Index, output: usize, other: usize) -> bool
    ensures { result ≡ (eqb other output || among (side output other) (clauses index.now.row.now)) }
{
    other == output || has_side(index, output, other)
}

/// Whether every literal of the anchor but the output has its clause with the output in the row.
fn are_met(index: &Index, anchor: &[i32], output: usize) -> bool
    ensures { result ≡ list_all (λ x. eqb x output || among (side output x) (clauses index.now.row.now)) (map literal anchor.now) }
{
    anchor
        .iter()
        .map(|&entry| literal(entry))
        .all(|x| is_met(index, output, x))
}

/// Whether the and-form with this literal of the anchor as its output is found.
pub fn and_form_found(index: &Index, anchor: &[i32], output: usize) -> bool
    requires stands { Memᴰ (map literal anchor.now) (clauses index.now.row.now) }
    ensures { result ≡ found (clauses index.now.row.now) (and_form (map literal anchor.now) output) }
{
    are_met(index, anchor, output)
}
