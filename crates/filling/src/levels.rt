// The levels of the gates taken: a gate's is one more than its inputs' highest, and that of any other variable is 0.
ghost use Rattle.std.specs.Prelude.{◌≡◌, ◌-◌, ◌+◌, ◌<◌, ◌≤◌, ◌^◌, map, max, length, get_or, set};
ghost use Rattle.std.specs.List.{fold};
ghost use Rattle.tables.specs.Literal.{literal, var};
ghost use Rattle.rules.specs.Patterns.{others};
ghost use Rattle.rules.specs.Circuit.{highest, level_step};
ghost use Rattle.gates.specs.Sites.{Within, gate_of};
ghost use Rattle.gates.specs.Inputs.{inputs};
ghost use Rattle.gates.specs.TakenGates.{gates_in};

use gates::site::Site;
use gates::taken::Taken;
use tables::literal::var;
use tables::sizes::MOST_VARIABLES;

/// The level of a variable: 0 beyond the row.
fn level_of(levels: &[u16], variable: usize) -> u16
    ensures { result ≡ get_or levels.now variable 0 }
{
    levels.get(variable).copied().unwrap_or(0)
}

/// The highest level of the gate's inputs.
#[tactic(auto, unfolding(rules::specs::Circuit::highest))]
fn highest(row: &[i32], site: Site, levels: &[u16]) -> u16
    requires { Within row.now site }
    ensures { result ≡ highest levels.now (inputs row.now site) }
{
    site.inputs(row)
        .fold(0, |high, input| high.max(level_of(levels, var(input))))
}

/// Gives a variable its level, if the row has a place for it.
fn set_level(levels: &mut [u16], variable: usize, level: u16)
    ensures { levels.new ≡ set levels.old variable level }
{
    if variable < levels.len() {
        levels[variable] = level;
    }
}

/// Gives the gate's output its level.
#[tactic(auto, using(gates::proofs::SiteLaws::output_at, gates::proofs::SiteGates::inputs_are), unfolding(rules::specs::Circuit::level_step))]
fn level_step(row: &[i32], site: Site, levels: &mut [u16])
    requires within { Within row.now site }
    requires low { highest levels.old (inputs row.now site) < 2 ^ 16 - 1 }
    ensures { levels.new ≡ level_step levels.old (gate_of row.now site) }
{
    let level = highest(row, site, levels) + 1;
    set_level(levels, var(site.output), level);
}

/// The levels by variable, gate after gate.
#[tactic(auto, using(crate::proofs::LevelSteps::levels_none, crate::proofs::LevelSteps::levels_more, crate::proofs::LevelSteps::levels_low))]
pub fn levels(taken: &Taken, levels: &mut [u16])
    requires few { length taken.now.sites.now ≤ MOST_VARIABLES }
    requires some { 1 ≤ length levels.old }
    ensures { levels.new ≡ Rattle.rules.specs.Circuit.levels (length levels.old - 1) (gates_in taken.now) }
{
    levels.fill(0);
    for &site in taken.sites {
        level_step(taken.row, site, levels);
    }
}
