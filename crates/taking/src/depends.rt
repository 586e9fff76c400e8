// What depends on a variable through the gates taken. The gates stand in an order of evaluation, so one walk finds all that
// depends: a byte for each variable, 1 where it does.
ghost use Rattle.std.specs.Prelude.{◌≡◌, ◌-◌, ◌≤◌, map, length, set, replicate};
ghost use Rattle.std.specs.List.{All, fold, list_any};
ghost use Rattle.tables.specs.Literal.{literal, var};
ghost use Rattle.rules.specs.Forced.{marked};
ghost use Rattle.rules.specs.Patterns.{others};
ghost use Rattle.rules.specs.Taking.{touched, depend_step, dependents};
ghost use Rattle.gates.specs.Sites.{Within, gate_of, gates_of};

use gates::site::Site;
use rules::marks::{is_marked, mark};
use tables::literal::{literal, var};

/// Whether the variable of a literal of the clause is marked, the output's literal left out.
#[tactic(auto, unfolding(rules::specs::Patterns::others))]
fn has_marked(clause: &[i32], output: usize, marks: &[u8]) -> bool
    ensures { result ≡ list_any (λ l. marked marks.now (var l)) (others output (map literal clause.now)) }
{
    clause
        .iter()
        .map(|&entry| literal(entry))
        .filter(|&l| l != output)
        .any(|l| is_marked(marks, var(l)))
}

/// Whether an input of the gate is marked: the inputs are of the variables of the anchor's other literals.
#[tactic(auto, using(gates::proofs::SiteLaws::touched_at))]
pub fn is_touched(row: &[i32], site: Site, marks: &[u8]) -> bool
    requires { Within row.now site }
    ensures { result ≡ touched marks.now (gate_of row.now site) }
{
    has_marked(site.anchor(row), site.output, marks)
}

/// Marks the gate's output if one of its inputs is marked.
#[tactic(auto, using(gates::proofs::SiteLaws::output_at), unfolding(rules::specs::Taking::depend_step))]
fn depend_step(row: &[i32], site: Site, marks: &mut [u8])
    requires { Within row.now site }
    ensures { marks.new ≡ depend_step marks.old (gate_of row.now site) }
{
    if is_touched(row, site, marks) {
        mark(marks, var(site.output));
    }
}

/// Marks what depends, through the gates, on the variables that are marked: in their order, a gate's output where one of its
/// inputs is marked.
fn depend(row: &[i32], sites: &[Site], marks: &mut [u8])
    requires { All (Within row.now) sites.now }
    ensures { marks.new ≡ fold depend_step marks.old (gates_of row.now sites.now) }
{
    for &site in sites {
        depend_step(row, site, marks);
    }
}

/// Marks what depends on a variable through the gates, the variable itself among them.
#[tactic(auto, unfolding(rules::specs::Taking::dependents))]
pub fn dependents(row: &[i32], sites: &[Site], variable: usize, marks: &mut [u8])
    requires within { All (Within row.now) sites.now }
    requires some { 1 ≤ length marks.old }
    ensures { marks.new ≡ dependents (length marks.old - 1) (gates_of row.now sites.now) variable }
{
    marks.fill(0);
    mark(marks, variable);
    depend(row, sites, marks);
}

/// Marks a variable, and no other: what depends on one that no gate speaks of.
pub fn alone(variable: usize, marks: &mut [u8])
    ensures { marks.new ≡ set (replicate (length marks.old) 0) variable 1 }
{
    marks.fill(0);
    mark(marks, variable);
}
