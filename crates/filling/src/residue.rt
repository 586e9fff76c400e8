// Whether a clause is in the pattern of a gate taken. What is in none is the residue.
ghost use Rattle.std.specs.Prelude.{◌≡◌, ◌≢◌, ◌&&◌, map, not, eqb, length};
ghost use Rattle.std.specs.List.{list_any};
ghost use Rattle.ways.specs.Ways.{among, has, same};
ghost use Rattle.tables.specs.Literal.{literal, opp};
ghost use Rattle.rules.specs.Patterns.{group, side};
ghost use Rattle.rules.specs.Circuit.{in_pattern};
ghost use Rattle.gates.specs.Sites.{Within, gate_of};
ghost use Rattle.gates.specs.TakenGates.{gates_in};
ghost use Rattle.filling.specs.Places.{IsPlaced};
ghost use Rattle.filling.specs.Outputs.{Apart, Speaking, in_pattern_at};

use crate::places::gate_for;
use gates::site::Site;
use gates::taken::Taken;
use gates::value::is_odd;
use rules::sides::side;
use tables::clause::{has_literal, has_variables_of, is_clause_of, is_same};
use tables::literal::{literal, opposite, var};

/// Whether the clause is that of the output with another literal: of the opposites of both.
fn is_side(clause: &[i32], output: usize, other: usize) -> bool
    requires { output ≢ other }
    ensures { result ≡ same (map literal clause.now) (side output other) }
{
    let (x, y) = side(output, other);
    is_clause_of(clause, x, y)
}

/// Whether the clause has two literals, and the opposite of the output is one: else it is that of the output with no other.
fn may_be_side(clause: &[i32], output: usize) -> bool
    ensures { result ≡ (eqb (length clause.now) 2 && has (opp output) (map literal clause.now)) }
{
    clause.len() == 2 && has_literal(clause, opposite(output))
}

/// Whether the clause is that of the output with one of the anchor's other literals. The anchor is walked only where it may be.
fn is_partner(clause: &[i32], anchor: &[i32], output: usize) -> bool
    ensures { result ≡ list_any (λ x. not (eqb x output) && same (map literal clause.now) (side output x)) (map literal anchor.now) }
{
    may_be_side(clause, output)
        && anchor
            .iter()
            .map(|&entry| literal(entry))
            .any(|x| x != output && is_side(clause, output, x))
}

/// Whether the clause is of the anchor's parity group: over the same variables, with as many negative literals, odd or even.
// The search for patterns has the same by sign masks, which hold five literals; here nothing says that the anchor is so short.
#[tactic(auto, using(rules::proofs::Groups::group_by_odd, rules::proofs::Groups::other_vars))]
fn is_alike(clause: &[i32], anchor: &[i32]) -> bool
    ensures { result ≡ among (map literal clause.now) (group (map literal anchor.now)) }
{
    has_variables_of(clause, anchor) && is_odd(clause) == is_odd(anchor)
}

/// Whether the clause is in the gate's pattern.
#[tactic(auto, using(crate::proofs::PatternParts::pattern_at))]
fn is_in(row: &[i32], site: Site, clause: &[i32]) -> bool
    requires { Within row.now site }
    ensures { result ≡ among (map literal clause.now) (gate_of row.now site).pattern }
{
    let anchor = site.anchor(row);
    if site.parity {
        is_alike(clause, anchor)
    } else {
        is_same(clause, anchor) || is_partner(clause, anchor, site.output)
    }
}

/// Whether the clause is in the pattern of the gate whose output the variable is, if there is one.
fn in_pattern_at(taken: &Taken, places: &[u16], clause: &[i32], variable: usize) -> bool
    requires placed { IsPlaced taken.now.sites.now places.now }
    requires apart { Apart taken.now.sites.now }
    ensures { result ≡ in_pattern_at taken.now.row.now taken.now.sites.now (map literal clause.now) variable }
{
    match gate_for(taken.sites, places, variable) {
        Some(site) => is_in(taken.row, site, clause),
        None => false,
    }
}

/// Whether the clause is in the pattern of one of the gates. Only those are looked at whose outputs it speaks of.
pub fn in_pattern(taken: &Taken, places: &[u16], clause: &[i32]) -> bool
    requires placed { IsPlaced taken.now.sites.now places.now }
    requires apart { Apart taken.now.sites.now }
    requires speaking { Speaking taken.now.row.now taken.now.sites.now }
    ensures { result ≡ in_pattern (gates_in taken.now) (map literal clause.now) }
{
    for &entry in clause {
        if in_pattern_at(taken, places, clause, var(literal(entry))) {
            return true;
        }
    }
    false
}
