// Tests of one clause, lent as its own stretch of a table without the ending zero.
ghost use Rattle.std.specs.Prelude.{◌≡◌, ◌≤◌, ◌∷◌, [], eqb, map, length};
ghost use Rattle.std.specs.Bool.{OnTrue};
ghost use Rattle.ways.specs.Ways.{has, same};
ghost use Rattle.tables.specs.Literal.{literal, valued, var};
ghost use Rattle.tables.specs.Clause.{void, width, satisfies};

use crate::literal::{literal, opposite, var};
use crate::values::is_true;

/// Whether two clauses are the same, literal by literal.
pub fn is_same(clause: &[i32], other: &[i32]) -> bool
    ensures { result ≡ same (map literal clause.now) (map literal other.now) }
{
    clause == other
}

/// Whether the clause is that of two literals, in this order.
pub fn is_clause_of(clause: &[i32], x: usize, y: usize) -> bool
    ensures { result ≡ same (map literal clause.now) (x ∷ y ∷ []) }
{
    clause.len() == 2 && literal(clause[0]) == x && literal(clause[1]) == y
}

/// Whether two entries are of one variable.
fn is_of_variable(entry: i32, other: i32) -> bool
    ensures { result ≡ eqb (var (literal entry)) (var (literal other)) }
{
    var(literal(entry)) == var(literal(other))
}

/// Whether two clauses are over the same variables, one by one.
#[tactic(auto, using(crate::proofs::SameVariables::vars_longer))]
pub fn has_variables_of(clause: &[i32], other: &[i32]) -> bool
    ensures is { result ≡ same (map var (map literal clause.now)) (map var (map literal other.now)) }
    ensures long { OnTrue result (length clause.now ≡ length other.now) }
{
    clause.len() == other.len()
        && clause
            .iter()
            .zip(other)
            .all(|(&entry, &other)| is_of_variable(entry, other))
}

/// Whether the clause has a literal.
pub fn has_literal(clause: &[i32], wanted: usize) -> bool
    ensures { result ≡ has wanted (map literal clause.now) }
{
    clause
        .iter()
        .map(|&entry| literal(entry))
        .any(|l| wanted == l)
}

/// Whether the clause holds a literal with its opposite.
pub fn is_void(clause: &[i32]) -> bool
    ensures { result ≡ void (map literal clause.now) }
{
    clause
        .iter()
        .map(|&entry| literal(entry))
        .any(|l| has_literal(clause, opposite(l)))
}

#[tactic(auto, unfolding(crate::specs::Clause::width))]
/// How many literals the clause has, each counted once.
pub fn width(clause: &[i32]) -> usize
    ensures is { result ≡ width (map literal clause.now) }
    ensures within { result ≤ length clause.now }
{
    let mut width = 0;
    for (place, &entry) in clause.iter().enumerate() {
        if !has_literal(clause.split_at(place + 1).1, literal(entry)) {
            width += 1;
        }
    }
    width
}

/// Whether the clause is satisfied where each variable has its value.
pub fn is_satisfied(clause: &[i32], values: &[u8]) -> bool
    ensures { result ≡ satisfies (valued values.now) (map literal clause.now) }
{
    clause
        .iter()
        .map(|&entry| literal(entry))
        .any(|l| is_true(values, l))
}
