// Which variables are outputs of the gates taken, and which are free.
ghost use Rattle.std.specs.Prelude.{◌≡◌, ◌<◌, List, ℕ, ℤ, length, eqb};
ghost use Rattle.std.specs.List.{list_any};
ghost use Rattle.tables.specs.Literal.{var};
ghost use Rattle.rules.specs.Forced.{marked};
ghost use Rattle.rules.specs.Pairs.{root};
ghost use Rattle.rules.specs.Patterns.{Gate};
ghost use Rattle.rules.specs.Taking.{is_output};
ghost use Rattle.rules.specs.Circuit.{free};
ghost use Rattle.gates.specs.Sites.{gates_of};
ghost use Rattle.gates.specs.Outputs.{with_outputs};

use crate::site::Site;
use rules::marks::{is_marked, mark};
use tables::literal::var;

/// Whether a site has its output at the variable.
fn has_output(sites: &[Site], variable: usize) -> bool
    ensures { result ≡ list_any (λ s. eqb (var s.output) variable) sites.now }
{
    sites.iter().any(|site| var(site.output) == variable)
}

/// Whether the variable is the output of one of the gates, whatever row they stand in.
pub fn is_output(sites: &[Site], variable: usize) -> bool
    ensures { (row : List ℤ) → result ≡ is_output (gates_of row sites.now) variable }
{
    has_output(sites, variable)
}

/// Marks the outputs of the gates, and no other variable: is_output of all variables in one walk.
pub fn mark_outputs(sites: &[Site], marks: &mut [u8])
    ensures { (row : List ℤ) (v : ℕ) → v < length marks.old → marked marks.new v ≡ is_output (gates_of row sites.now) v }
{
    marks.fill(0);
    for &site in sites {
        mark(marks, var(site.output));
    }
}

/// Whether the variable is a root.
#[tactic(auto, unfolding(rules::specs::Pairs::root, rules::specs::Pairs::stands))]
fn is_root(stands: &[u16], variable: usize) -> bool
    ensures { result ≡ root stands.now variable }
{
    match stands.get(variable) {
        Some(&literal) => usize::from(literal) == 2 * variable,
        None => true,
    }
}

/// Whether the variable is free among gates whose outputs are marked: a root that is no output.
#[tactic(auto, unfolding(rules::specs::Circuit::free))]
pub fn is_free(stands: &[u16], outputs: &[u8], variable: usize) -> bool
    ensures { (gs : List Gate) → marked outputs.now variable ≡ is_output gs variable → result ≡ free stands.now gs variable }
{
    is_root(stands, variable) && !is_marked(outputs, variable)
}
