// The clauses of two literals that an and-form has beside its anchor.
ghost use Rattle.std.specs.Prelude.{◌≡◌, ◌≢◌, ◌∷◌, []};
ghost use Rattle.rules.specs.Patterns.{side};

use tables::literal::opposite;

/// The literals, in their order, of the clause for the output and another literal of the anchor: the opposites of both.
#[tactic(auto, using(crate::proofs::SideLaws::side_rises, crate::proofs::SideLaws::side_falls))]
pub fn side(output: usize, other: usize) -> (usize, usize)
    requires { output ≢ other }
    ensures { side output other ≡ result.0 ∷ result.1 ∷ [] }
{
    let x = opposite(output);
    let y = opposite(other);
    if x < y { (x, y) } else { (y, x) }
}
