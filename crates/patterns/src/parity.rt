// Parity groups: whether a clause is its group's first in the row, and whether the row has all of the group.
ghost use Rattle.std.specs.Prelude.{◌≡◌, ◌&&◌, ◌<◌, ◌≤◌, ℕ, map, length};
ghost use Rattle.std.specs.Bool.{OnTrue};
ghost use Rattle.std.specs.List.{list_all};
ghost use Rattle.ways.specs.Ways.{among, same};
ghost use Rattle.tables.specs.Literal.{literal};
ghost use Rattle.tables.specs.Clause.{clauses};
ghost use Rattle.rules.specs.Patterns.{anchors, first_of, found, group, parity};
ghost use Rattle.patterns.specs.Seen.{see, seen};

use crate::index::{Index, key};
use crate::signs::{MOST_GROUPED, is_odd, signs};
use tables::clause::{has_variables_of, is_same};

/// Whether the clause is of the anchor's group: over the same variables, with as many negative literals, odd or even.
#[tactic(auto, using(rules::proofs::Groups::group_by_odd, rules::proofs::Groups::other_vars))]
fn is_alike(clause: &[i32], anchor: &[i32]) -> bool
    requires { length anchor.now ≤ MOST_GROUPED }
    ensures is { result ≡ among (map literal clause.now) (group (map literal anchor.now)) }
    ensures long { OnTrue result (length clause.now ≡ length anchor.now) }
{
    has_variables_of(clause, anchor) && is_odd(clause) == is_odd(anchor)
}

/// The patterns seen, with the clause's own if it is of the anchor's group.
#[tactic(auto, unfolding(crate::specs::Seen::see), using(std::proofs::lemmas::Nat::one_shl))]
fn see(clause: &[i32], anchor: &[i32], seen: u32) -> u32
    requires { length anchor.now ≤ MOST_GROUPED }
    ensures { result ≡ see (map literal anchor.now) seen (map literal clause.now) }
{
    if is_alike(clause, anchor) {
        seen | 1 << signs(clause)
    } else {
        seen
    }
}

/// The sign patterns of the anchor's group that the row has: a walk along the chain of the anchor's key.
#[tactic(auto, using(crate::proofs::Keyed::fold_keyed))]
fn patterns_seen(index: &Index, anchor: &[i32]) -> u32
    requires few { length anchor.now ≤ MOST_GROUPED }
    ensures { result ≡ seen (clauses index.now.row.now) (map literal anchor.now) }
{
    let mut seen = 0;
    for clause in index.chain(key(anchor)) {
        seen = see(clause, anchor, seen);
    }
    seen
}

/// Whether the row has every clause of the anchor's group.
#[tactic(auto, using(crate::proofs::Whole::whole_row))]
fn is_whole(index: &Index, anchor: &[i32]) -> bool
    requires some { 0 < length anchor.now }
    requires few { length anchor.now ≤ MOST_GROUPED }
    ensures { result ≡ list_all (λ d. among d (clauses index.now.row.now)) (group (map literal anchor.now)) }
{
    patterns_seen(index, anchor).count_ones() == 1 << (anchor.len() - 1)
}

/// Whether the anchor is the first clause of its group in the row: a walk along the chain of its key.
#[tactic(auto, using(crate::proofs::Keyed::first_keyed, crate::proofs::Whole::first_of_none), unfolding(rules::specs::Patterns::first_of))]
fn is_first(index: &Index, anchor: &[i32]) -> bool
    requires some { 0 < length anchor.now }
    requires few { length anchor.now ≤ MOST_GROUPED }
    ensures { result ≡ same (first_of (group (map literal anchor.now)) (clauses index.now.row.now)) (map literal anchor.now) }
{
    for clause in index.chain(key(anchor)) {
        if is_alike(clause, anchor) {
            return is_same(clause, anchor);
        }
    }
    false
}

/// Whether the anchor is its parity group's first clause and the group is whole.
#[tactic(auto, unfolding(rules::specs::Patterns::anchors, rules::specs::Patterns::found, rules::specs::Patterns::parity))]
pub fn parity_found(index: &Index, anchor: &[i32]) -> bool
    requires some { 0 < length anchor.now }
    ensures { (o : ℕ) → result ≡ (anchors (clauses index.now.row.now) (map literal anchor.now) && found (clauses index.now.row.now) (parity (map literal anchor.now) o)) }
{
    anchor.len() <= MOST_GROUPED && is_first(index, anchor) && is_whole(index, anchor)
}
