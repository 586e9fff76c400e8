// A round's first step: forced literals, in passes over the clauses until a pass adds none.
ghost use Rattle.std.specs.Prelude.{◌≡◌, ◌&&◌, ◌+◌, ◌*◌, ℕ, List, [], ◌∷◌, map, not, length, replicate};
ghost use Rattle.std.specs.Bool.{OnFalse};
ghost use Rattle.std.specs.List.{find, list_any};
ghost use Rattle.std.specs.Fn.{iterate};
ghost use Rattle.tables.specs.Literal.{literal, opp};
ghost use Rattle.tables.specs.Clause.{clauses};
ghost use Rattle.rules.specs.Forced.{marked, forces, force_at, force_in, pass};
ghost use Rattle.rules.specs.Rounds.{pinned};

use rules::marks::{is_marked, mark};
use tables::clause::is_void;
use tables::literal::{literal, opposite};
use tables::rows::clauses_of;

/// Whether the clause forces a literal: the opposites of all its other literals are marked.
#[tactic(auto, unfolding(rules::specs::Forced::forces))]
fn is_forced(clause: &[i32], marks: &[u8], l: usize) -> bool
    ensures { result ≡ forces marks.now (map literal clause.now) l }
{
    clause
        .iter()
        .map(|&entry| literal(entry))
        .all(|x| x == l || is_marked(marks, opposite(x)))
}

/// Marks a literal if the clause forces it.
#[tactic(auto, unfolding(rules::specs::Forced::force_at))]
fn force_at(clause: &[i32], marks: &mut [u8], l: usize)
    ensures { marks.new ≡ force_at (map literal clause.now) marks.old l }
{
    if is_forced(clause, marks, l) {
        mark(marks, l);
    }
}

/// The clause's first literal whose opposite is not marked: if it forces any that is not marked either, then this one.
fn first_open(clause: &[i32], marks: &[u8]) -> Option<usize>
    ensures { result ≡ find (λ l. not (marked marks.now (opp l))) (map literal clause.now) }
{
    clause
        .iter()
        .map(|&entry| literal(entry))
        .find(|&l| !is_marked(marks, opposite(l)))
}

/// Whether a literal of the clause is not marked.
fn has_unmarked(clause: &[i32], marks: &[u8]) -> bool
    ensures { result ≡ list_any (λ l. not (marked marks.now l)) (map literal clause.now) }
{
    clause
        .iter()
        .map(|&entry| literal(entry))
        .any(|l| !is_marked(marks, l))
}

/// Whether the clause forces a literal, and it is not marked yet.
fn is_new(clause: &[i32], marks: &[u8], l: usize) -> bool
    ensures { result ≡ (forces marks.now (map literal clause.now) l && not (marked marks.now l)) }
{
    !is_marked(marks, l) && is_forced(clause, marks, l)
}

/// Whether the clause forces a literal that is not marked yet.
fn adds(clause: &[i32], marks: &[u8]) -> bool
    ensures { result ≡ list_any (λ l. forces marks.now (map literal clause.now) l && not (marked marks.now l)) (map literal clause.now) }
{
    match first_open(clause, marks) {
        Some(l) => is_new(clause, marks, l),
        None => has_unmarked(clause, marks),
    }
}

/// Marks what one clause forces; whether any of it is new. The second step is taken for a clause that adds a mark only.
#[tactic(auto, using(crate::proofs::ForceSteps::adds_none), unfolding(rules::specs::Forced::force_in))]
pub fn force_clause(clause: &[i32], marks: &mut [u8]) -> bool
    ensures forced { marks.new ≡ force_in marks.old (map literal clause.now) }
    ensures still { OnFalse result (marks.new ≡ marks.old) }
{
    if !adds(clause, marks) || is_void(clause) {
        return false;
    }
    for &entry in clause {
        force_at(clause, marks, literal(entry));
    }
    true
}

/// One pass over the row's clauses; whether any mark is new.
#[tactic(auto, unfolding(rules::specs::Forced::pass))]
pub fn pass_over(row: &[i32], marks: &mut [u8]) -> bool
    ensures passed { marks.new ≡ pass (clauses row.now) marks.old }
    ensures still { OnFalse result (marks.new ≡ marks.old) }
{
    let mut grown = false;
    for clause in clauses_of(row) {
        grown = force_clause(clause, marks) || grown;
    }
    grown
}

/// One pass over the pins, each a clause of one literal; whether any mark is new.
#[tactic(auto, unfolding(rules::specs::Forced::pass))]
pub fn pass_pins(pins: &[i32], marks: &mut [u8]) -> bool
    ensures passed { marks.new ≡ pass (map (λ p. literal p ∷ []) pins.now) marks.old }
    ensures still { OnFalse result (marks.new ≡ marks.old) }
{
    let mut grown = false;
    for &pin in pins {
        grown = force_clause(&[pin], marks) || grown;
    }
    grown
}

/// One pass over the row's clauses and the pins behind them; whether any mark is new.
#[tactic(auto, using(crate::proofs::ForcePasses::pass_parts), unfolding(rules::specs::Rounds::pinned))]
fn pass_pinned(row: &[i32], pins: &[i32], marks: &mut [u8]) -> bool
    ensures passed { marks.new ≡ pass (pinned row.now pins.now) marks.old }
    ensures still { OnFalse result (marks.new ≡ marks.old) }
{
    let grown = pass_over(row, marks);
    pass_pins(pins, marks) || grown
}

/// The forced literals: passes from no mark at all on, until one adds none.
#[tactic(auto, using(crate::proofs::ForcePasses::passes_end, crate::proofs::ForcePasses::passes_turn))]
pub fn force(row: &[i32], pins: &[i32], marks: &mut [u8])
    ensures { marks.new ≡ iterate (pass (pinned row.now pins.now)) (length marks.old) (replicate (length marks.old) 0) }
{
    marks.fill(0);
    for _pass in 0..marks.len() {
        if !pass_pinned(row, pins, marks) {
            return;
        }
    }
}
