// A gate's value: each kind has its own rule, from how many inputs are true and how many there are.
ghost use Rattle.std.specs.Prelude.{◌≡◌, ◌<◌, ◌≤◌, map, not};
ghost use Rattle.std.specs.List.{list_all};
ghost use Rattle.tables.specs.Literal.{literal, neg, valued};
ghost use Rattle.rules.specs.Kinds.{signs, rule};
ghost use Rattle.rules.specs.Patterns.{odd};
ghost use Rattle.gates.specs.Sites.{Within, gate_of};
ghost use Rattle.gates.specs.Inputs.{inputs};
ghost use Rattle.gates.specs.Counting.{by_count};

use crate::inputs::{input_count, true_count};
use crate::kinds::{AND, CG, DG, NAND, NOR, OR, XNOR, XOR};
use crate::site::Site;
use tables::literal::{is_negative, literal};

/// What a kind's rule makes of so many true inputs. The inputs of cg and dg count by their signs, the others by variable.
#[tactic(auto, unfolding(crate::specs::Counting::by_count))]
pub fn rule_of(kind: u8, trues: usize, inputs: usize) -> bool
    requires { kind < 8 }
    ensures { result ≡ by_count kind trues inputs }
{
    match kind {
        AND => trues == inputs,
        NOR => trues == 0,
        CG => trues == inputs,
        OR => trues > 0,
        NAND => trues != inputs,
        DG => trues > 0,
        XOR => trues % 2 == 1,
        _ => trues % 2 == 0,
    }
}

/// Whether an odd number of the clause's literals is negative.
// Counted, for a clause of any length: the search for patterns has it for at most five literals, as ones of their sign mask.
#[tactic(auto, using(crate::proofs::Counts::odd_count), unfolding(rules::specs::Patterns::odd))]
pub fn is_odd(clause: &[i32]) -> bool
    ensures { result ≡ odd (map literal clause.now) }
{
    let negatives = clause
        .iter()
        .map(|&entry| literal(entry))
        .filter(|&l| is_negative(l))
        .count();
    negatives % 2 == 1
}

/// Whether no input is negative.
fn are_positive(row: &[i32], site: Site) -> bool
    requires { Within row.now site }
    ensures { result ≡ list_all (λ l. not (neg l)) (inputs row.now site) }
{
    site.inputs(row).all(|l| !is_negative(l))
}

/// Whether every input is negative.
fn are_negative(row: &[i32], site: Site) -> bool
    requires { Within row.now site }
    ensures { result ≡ list_all neg (inputs row.now site) }
{
    site.inputs(row).all(|l| is_negative(l))
}

/// The signs of a gate's inputs, as the kind table has them.
#[tactic(auto, unfolding(rules::specs::Kinds::signs))]
fn signs(row: &[i32], site: Site) -> u8
    requires { Within row.now site }
    ensures is { result ≡ signs (inputs row.now site) }
    ensures within { result ≤ 2 }
{
    if are_positive(row, site) {
        0
    } else if are_negative(row, site) {
        1
    } else {
        2
    }
}

/// The number of a gate's kind.
#[tactic(auto, using(crate::proofs::SiteGates::kind_parity, crate::proofs::SiteGates::kind_and), unfolding(rules::specs::Kinds::parity_kind))]
pub fn site_kind(row: &[i32], site: Site) -> u8
    requires { Within row.now site }
    ensures is { result ≡ (gate_of row.now site).kind }
    ensures within { result < 8 }
{
    if site.parity {
        if is_odd(site.anchor(row)) { XOR } else { XNOR }
    } else if is_negative(site.output) {
        OR + signs(row, site)
    } else {
        AND + signs(row, site)
    }
}

/// A gate's value where each variable has its own.
pub fn site_value(row: &[i32], site: Site, values: &[u8]) -> bool
    requires { Within row.now site }
    ensures { result ≡ rule (gate_of row.now site).kind (valued values.now) (gate_of row.now site).inputs }
{
    let kind = site_kind(row, site);
    rule_of(
        kind,
        true_count(row, site, kind, values),
        input_count(row, site),
    )
}
