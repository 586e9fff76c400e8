// Contradiction: the set of forced literals holds a literal and its opposite, or the table holds an empty clause.
ghost use Rattle.std.specs.Prelude.{◌≡◌, ◌<◌, ◌+◌, ◌*◌, ◌^◌, length};
ghost use Rattle.std.specs.List.{list_any};
ghost use Rattle.tables.specs.Clause.{clauses};
ghost use Rattle.rules.specs.Forced.{clash, contradicts, empty, forced};
ghost use Rattle.rules.specs.Rounds.{pinned};

use crate::force::force;
use rules::marks::is_marked;
use tables::rows::clauses_of;

/// Whether the row has an empty clause.
pub fn has_empty(row: &[i32]) -> bool
    ensures { result ≡ list_any empty (clauses row.now) }
{
    clauses_of(row).any(|clause| clause.is_empty())
}

/// Whether a literal of the variables 1 to n is marked with its opposite.
#[tactic(auto, unfolding(rules::specs::Forced::clash))]
pub fn has_clash(n: usize, marks: &[u8]) -> bool
    requires { n < 2 ^ 32 }
    ensures { result ≡ clash n marks.now }
{
    (1..n + 1).any(|v| is_marked(marks, 2 * v) && is_marked(marks, 2 * v + 1))
}

/// Marks the forced literals of the row and its pins; whether they are a contradiction.
#[tactic(auto, using(crate::proofs::Empties::empty_pinned), unfolding(rules::specs::Forced::contradicts, rules::specs::Forced::forced))]
pub fn contradicts(n: usize, row: &[i32], pins: &[i32], marks: &mut [u8]) -> bool
    requires small { n < 2 ^ 32 }
    requires room { length marks.old ≡ 2 * n + 2 }
    ensures is { result ≡ contradicts n (pinned row.now pins.now) }
    ensures forced { marks.new ≡ forced n (pinned row.now pins.now) }
{
    force(row, pins, marks);
    has_empty(row) || has_clash(n, marks)
}
