// The signs of a short clause as a number: a bit for each literal, set where it is negative.
ghost use Rattle.std.specs.Prelude.{◌≡◌, ◌<◌, ◌≤◌, map, length};
ghost use Rattle.tables.specs.Literal.{literal};
ghost use Rattle.rules.specs.Patterns.{odd};
ghost use Rattle.patterns.specs.Seen.{signs};

use tables::literal::{is_negative, literal};

/// How many literals the clauses of a parity group have at most.
pub const MOST_GROUPED: usize = 5;

/// The clause's signs, the first literal's the highest bit.
#[tactic(auto, using(crate::proofs::Ones::read_more, crate::proofs::Ones::read_start, crate::proofs::Ones::read_all, crate::proofs::Ones::below_32))]
pub fn signs(clause: &[i32]) -> u32
    requires { length clause.now ≤ MOST_GROUPED }
    ensures is { result ≡ signs (map literal clause.now) }
    ensures within { result < 32 }
{
    let mut signs = 0;
    for &entry in clause {
        signs = 2 * signs + u32::from(is_negative(literal(entry)));
    }
    signs
}

/// Whether the clause has an odd number of negative literals.
#[tactic(auto, using(crate::proofs::Ones::odd_ones))]
pub fn is_odd(clause: &[i32]) -> bool
    requires { length clause.now ≤ MOST_GROUPED }
    ensures { result ≡ odd (map literal clause.now) }
{
    signs(clause).count_ones() % 2 == 1
}
