// The inputs of a gate that is found at an anchor: one for each of the anchor's other literals, and none is written down. Who
// needs them goes by the iterator.
ghost use Rattle.std.specs.Prelude.{◌≡◌, ◌<◌, length};
ghost use Rattle.std.specs.List.{count_by};
ghost use Rattle.tables.specs.Literal.{valued};
ghost use Rattle.gates.specs.Sites.{Within};
ghost use Rattle.gates.specs.Inputs.{input, inputs, to_come};
ghost use Rattle.gates.specs.Counting.{counts};

use crate::kinds::{CG, DG};
use crate::site::Site;
use tables::literal::{is_negative, literal, opposite, var};
use tables::values::is_set;

/// The inputs that are still to come, in the order of the anchor's literals.
#[derive(Drop)]
pub struct Inputs<'a> {
    site: Site,
    /// What is left of the anchor.
    rest: &'a [i32],
}

/// Whether an input of that value counts as true: that of cg or dg as a literal, any other by its variable.
pub fn is_counted(kind: u8, input: usize, value: bool) -> bool
    ensures { result ≡ counts kind (λ _. value) input }
{
    if kind == CG || kind == DG {
        value != is_negative(input)
    } else {
        value
    }
}

/// The input that stands for one of the other literals of the anchor.
#[tactic(auto, unfolding(crate::specs::Inputs::input))]
pub fn input(site: Site, other: usize) -> usize
    ensures { result ≡ input site other }
{
    if site.parity {
        2 * var(other)
    } else if is_negative(site.output) {
        other
    } else {
        opposite(other)
    }
}

impl<'a> Iterator for Inputs<'a> {
    ghost use Rattle.std.specs.Iterator.{YieldsFirst, item_count};

    type Item = usize;

    ghost next_gives = { YieldsFirst to_come };

    ghost remaining = { item_count to_come };

    fn next(&mut self) -> Option<usize> {
        let (site, rest) = (self.site, self.rest);
        let place = rest
            .iter()
            .position(|&entry| literal(entry) != site.output)?;
        self.rest = &rest[place + 1..];
        Some(input(site, literal(rest[place])))
    }
}

impl Site {
    /// The inputs, one after another.
    #[tactic(auto, using(crate::proofs::InputSteps::inputs_begin))]
    pub fn inputs(self, row: &[i32]) -> Inputs<'_>
        requires { Within row.now self }
        ensures { to_come result ≡ inputs row.now self }
    {
        Inputs {
            site: self,
            rest: self.anchor(row),
        }
    }
}

/// How many inputs there are.
#[tactic(auto, using(crate::proofs::InputSteps::few_come))]
pub fn input_count(row: &[i32], site: Site) -> usize
    requires { Within row.now site }
    ensures { result ≡ length (inputs row.now site) }
{
    site.inputs(row).count()
}

/// How many inputs count as true.
#[tactic(auto, using(crate::proofs::InputSteps::few_come))]
pub fn true_count(row: &[i32], site: Site, kind: u8, values: &[u8]) -> usize
    requires { Within row.now site }
    ensures { result ≡ count_by (counts kind (valued values.now)) (inputs row.now site) }
{
    site.inputs(row)
        .filter(|&l| is_counted(kind, l, is_set(values, var(l))))
        .count()
}
