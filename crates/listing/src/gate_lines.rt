// The G lines: level after level, and on each the gates by rising output.
ghost use Rattle.std.specs.Prelude.{◌≡◌, ◌<◌, ◌≤◌, map, get_or, codes};
ghost use Rattle.std.specs.List.{flat_map, range_with_len};
ghost use Rattle.rules.specs.Kinds.{kind_row};
ghost use Rattle.rules.specs.Circuit.{levels};
ghost use Rattle.rules.specs.Listing.{input_field, line_g, gates_at, lines_g};
ghost use Rattle.texts.specs.Laying.{laid, lay};
ghost use Rattle.gates.specs.Sites.{Within, gate_of};
ghost use Rattle.gates.specs.TakenGates.{gates_in};
ghost use Rattle.listing.specs.Fields.{field, fields};

use crate::fields::{put_number_field, put_signed_field};
use crate::survey::Survey;
use filling::places::{gate_for, place_of};
use gates::kinds::kind_row;
use gates::site::Site;
use gates::value::site_kind;
use tables::literal::var;
use texts::pieces::Laying;

/// Lays an input of a gate: with its sign, where the inputs of the kind carry signs.
#[tactic(auto, unfolding(rules::specs::Listing::input_field))]
fn put_input_field(laying: &mut Laying, kind: u8, input: usize)
    requires { kind < 8 }
    ensures { laid laying.new ≡ lay (laid laying.old) (field (input_field kind input)) }
{
    if kind_row(kind).input_signs == 2 {
        put_signed_field(laying, input);
    } else {
        put_number_field(laying, var(input));
    }
}

/// Lays the inputs of a gate.
#[tactic(auto, using(crate::proofs::GateSteps::input_on, crate::proofs::GateSteps::input_ends))]
fn put_inputs(laying: &mut Laying, kind: u8, row: &[i32], site: Site)
    requires kind { kind < 8 }
    requires within { Within row.now site }
    ensures { laid laying.new ≡ lay (laid laying.old) (fields (map (input_field kind) (gate_of row.now site).inputs)) }
{
    for input in site.inputs(row) {
        put_input_field(laying, kind, input);
    }
}

/// Lays the name of a gate's kind.
#[tactic(auto, using(texts::proofs::LaySteps::laid_behind))]
fn put_name_field(laying: &mut Laying, kind: u8)
    requires { kind < 8 }
    ensures { laid laying.new ≡ lay (laid laying.old) (field (codes (kind_row kind).name)) }
{
    laying.put(b"\t");
    laying.put(kind_row(kind).name.as_bytes());
}

/// Lays the line of a gate that is on a level.
#[tactic(auto, using(crate::proofs::Walks::lined_more, gates::proofs::SiteLaws::output_at), unfolding(rules::specs::Listing::line_g, rules::specs::Listing::line))]
fn put_line_g(laying: &mut Laying, row: &[i32], site: Site, level: usize)
    requires { Within row.now site }
    ensures { laid laying.new ≡ lay (laid laying.old) (line_g level (gate_of row.now site)) }
{
    let kind = site_kind(row, site);
    laying.put(b"G");
    put_number_field(laying, level);
    put_name_field(laying, kind);
    put_number_field(laying, var(site.output));
    put_inputs(laying, kind, row, site);
    laying.put(b"\n");
}

/// Lays the line of the gate whose output a variable is, if there is one, on the variable's level.
fn put_gate(laying: &mut Laying, survey: &Survey, level: usize, variable: usize)
    requires { let e = survey.now.evening in get_or (levels e.n (gates_in e.taken)) variable 0 ≡ level }
    ensures { let e = survey.now.evening in
        laid laying.new ≡ lay (laid laying.old) (flat_map (line_g level) (gates_at e.n (gates_in e.taken) level variable)) }
{
    let taken = survey.evening.taken;
    if let Some(site) = gate_for(taken.sites, survey.places, variable) {
        put_line_g(laying, taken.row, site, level);
    }
}

/// Lays the lines of the gates on a level.
fn put_level(laying: &mut Laying, survey: &Survey, level: usize)
    requires { level ≤ 1024 }
    ensures { let e = survey.now.evening in
        laid laying.new ≡ lay (laid laying.old) (flat_map (λ v. flat_map (line_g level) (gates_at e.n (gates_in e.taken) level v)) (range_with_len 1 e.n)) }
{
    let mut variable = place_of(survey.firsts, level);
    while variable != 0 {
        put_gate(laying, survey, level, variable);
        variable = place_of(survey.nexts, variable);
    }
}

/// Lays the G lines. No level is above the number of gates.
pub fn put_lines_g(laying: &mut Laying, survey: &Survey)
    ensures { laid laying.new ≡ lay (laid laying.old) (lines_g survey.now.evening.n (gates_in survey.now.evening.taken)) }
{
    for level in 1..=survey.evening.taken.sites.len() {
        put_level(laying, survey, level);
    }
}
