// The key of a clause, by which it is looked for.
ghost use Rattle.std.specs.Prelude.{◌≡◌, ◌<◌, map};
ghost use Rattle.tables.specs.Literal.{literal};
ghost use Rattle.chains.specs.Key.{key_step, key};

use tables::literal::literal;

/// How many keys there are.
pub const KEYS: usize = 2_048;

/// The key of a clause that has one literal more behind those of this key.
fn key_step(key: usize, literal: usize) -> usize
    requires { key < KEYS }
    ensures is { result ≡ key_step key literal }
    ensures within { result < KEYS }
{
    (31 * key + literal % KEYS) % KEYS
}

/// The clause's key.
#[tactic(auto, unfolding(crate::specs::Key::key))]
pub fn key_of(clause: &[i32]) -> usize
    ensures is { result ≡ key (map literal clause.now) }
    ensures within { result < KEYS }
{
    let mut key = 0;
    for &entry in clause {
        key = key_step(key, literal(entry));
    }
    key
}
