// The listing as a whole.
ghost use Rattle.std.specs.Prelude.{◌≡◌, ℕ, length, get_or};
ghost use Rattle.tables.specs.Clause.{clauses};
ghost use Rattle.rules.specs.Forced.{marked};
ghost use Rattle.rules.specs.Taking.{is_output};
ghost use Rattle.rules.specs.Circuit;
ghost use Rattle.rules.specs.Listing.{line_b, listing};
ghost use Rattle.texts.specs.Buffer.{overlay};
ghost use Rattle.texts.specs.Laying.{laid, lay};
ghost use Rattle.gates.specs.TakenGates.{gates_in};
ghost use Rattle.filling.specs.Places.{IsPlaced};
ghost use Rattle.listing.specs.Chains.{Chained};

use crate::chains::chain;
use crate::clause_lines::{count_residue, put_lines_r};
use crate::evening::Evening;
use crate::fields::put_numbers;
use crate::gate_lines::put_lines_g;
use crate::survey::Survey;
use crate::variables::{
    count_fixed, count_free, count_linked, put_lines_f, put_lines_l, put_lines_v,
};
use filling::levels::levels;
use filling::places::place_all;
use gates::outputs::mark_outputs;
use tables::sizes::VARIABLE_NUMBERS;
use texts::pieces::Laying;

/// Which variables are outputs.
fn outputs_of(evening: &Evening) -> [u8; VARIABLE_NUMBERS]
    ensures { (v : ℕ) → marked result v ≡ is_output (gates_in evening.now.taken) v }
{
    let mut outputs = [0; VARIABLE_NUMBERS];
    mark_outputs(evening.taken.sites, &mut outputs);
    outputs
}

/// Of which gate each variable is the output.
fn places_of(evening: &Evening) -> [u16; VARIABLE_NUMBERS]
    ensures { IsPlaced evening.now.taken.sites.now result }
{
    let mut places = [0; VARIABLE_NUMBERS];
    place_all(evening.taken.sites, &mut places);
    places
}

/// Chains the variables on each level.
fn chain_levels(evening: &Evening, firsts: &mut [u16], nexts: &mut [u16])
    requires levels_room { length firsts.old ≡ 1025 }
    requires room { length nexts.old ≡ 1025 }
    ensures { let e = evening.now in
        Chained e.n (Circuit.levels e.n (gates_in e.taken)) firsts.new nexts.new }
{
    let mut room = [0; VARIABLE_NUMBERS];
    let by_variable = &mut room[..=evening.n];
    levels(&evening.taken, by_variable);
    chain(by_variable, evening.n, firsts, nexts);
}

/// Lays the B line: what there is of each.
#[tactic(auto, unfolding(rules::specs::Listing::line_b, rules::specs::Listing::line))]
fn put_line_b(laying: &mut Laying, survey: &Survey)
    ensures { let e = survey.now.evening in
        laid laying.new ≡ lay (laid laying.old) (line_b e.n e.rounds e.stands.now (clauses e.taken.row.now) (gates_in e.taken)) }
{
    let Evening {
        n,
        rounds,
        stands,
        taken,
    } = survey.evening;
    let counts = [
        n,
        rounds,
        count_fixed(stands, n),
        count_linked(stands, n),
        taken.sites.len(),
        count_free(survey),
        count_residue(survey),
    ];
    put_numbers(laying, b"B", &counts);
}

/// Lays all lines.
#[tactic(auto, using(texts::proofs::LaySteps::laid_behind), unfolding(rules::specs::Listing::listing))]
fn put_lines(laying: &mut Laying, survey: &Survey)
    ensures { let e = survey.now.evening in
        laid laying.new ≡ lay (laid laying.old) (listing e.n e.rounds e.stands.now (clauses e.taken.row.now) (gates_in e.taken)) }
{
    let evening = survey.evening;
    put_line_b(laying, survey);
    put_lines_f(laying, evening.stands, evening.n);
    put_lines_l(laying, evening.stands, evening.n);
    put_lines_g(laying, survey);
    put_lines_v(laying, survey);
    put_lines_r(laying, survey);
}

/// Lays the listing of an evening over the front of a buffer: how many bytes it has.
pub fn put_listing(out: &mut [u8], evening: &Evening) -> usize
    ensures is { let e = evening.now in
        result ≡ length (listing e.n e.rounds e.stands.now (clauses e.taken.row.now) (gates_in e.taken)) }
    ensures laid { let e = evening.now in
        out.new ≡ overlay out.old 0 (listing e.n e.rounds e.stands.now (clauses e.taken.row.now) (gates_in e.taken)) }
{
    let outputs = outputs_of(evening);
    let places = places_of(evening);
    let mut firsts = [0; VARIABLE_NUMBERS];
    let mut nexts = [0; VARIABLE_NUMBERS];
    chain_levels(evening, &mut firsts, &mut nexts);
    let survey = Survey {
        evening: *evening,
        outputs: &outputs,
        places: &places,
        firsts: &firsts,
        nexts: &nexts,
    };
    let mut laying = Laying { out, at: 0 };
    put_lines(&mut laying, &survey);
    laying.at
}
