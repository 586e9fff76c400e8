// The lines of variables: F of the fixed, L of the linked, V of the free ones.
ghost use Rattle.std.specs.Prelude.{◌≡◌, ◌*◌, ◌≤◌, cond, [], filter, length};
ghost use Rattle.std.specs.List.{flat_map, range_with_len};
ghost use Rattle.rules.specs.Pairs.{fixed, linked};
ghost use Rattle.rules.specs.Circuit.{free};
ghost use Rattle.rules.specs.Listing.{line_f, line_l, line_v};
ghost use Rattle.texts.specs.Laying.{laid, lay};
ghost use Rattle.gates.specs.TakenGates.{gates_in};

use crate::fields::{put_number_field, put_numbers, put_signed_field};
use crate::survey::Survey;
use gates::outputs::is_free;
use rules::standing::stands_for;
use texts::pieces::Laying;

/// Whether a variable is fixed: it stands for 0 or 1.
#[tactic(auto, unfolding(rules::specs::Pairs::fixed, rules::specs::Pairs::stands))]
fn is_fixed(stands: &[u16], variable: usize) -> bool
    ensures { result ≡ fixed stands.now variable }
{
    match stands.get(variable) {
        Some(&literal) => literal < 2,
        None => variable == 0,
    }
}

/// Whether a variable is linked: it stands for another one's literal.
#[tactic(auto, unfolding(rules::specs::Pairs::linked, rules::specs::Pairs::fixed, rules::specs::Pairs::root, rules::specs::Pairs::stands))]
fn is_linked(stands: &[u16], variable: usize) -> bool
    ensures { result ≡ linked stands.now variable }
{
    match stands.get(variable) {
        Some(&literal) => literal >= 2 && usize::from(literal) != 2 * variable,
        None => false,
    }
}

/// How many variables are fixed.
pub fn count_fixed(stands: &[u16], n: usize) -> usize
    requires { n ≤ 1024 }
    ensures { result ≡ length (filter (fixed stands.now) (range_with_len 1 n)) }
{
    (1..n + 1)
        .filter(|&variable| is_fixed(stands, variable))
        .count()
}

/// How many variables are linked.
pub fn count_linked(stands: &[u16], n: usize) -> usize
    requires { n ≤ 1024 }
    ensures { result ≡ length (filter (linked stands.now) (range_with_len 1 n)) }
{
    (1..n + 1)
        .filter(|&variable| is_linked(stands, variable))
        .count()
}

/// Whether a variable is free.
fn is_free_in(survey: &Survey, variable: usize) -> bool
    ensures { let e = survey.now.evening in
        result ≡ free e.stands.now (gates_in e.taken) variable }
{
    is_free(survey.evening.stands, survey.outputs, variable)
}

/// How many variables are free.
pub fn count_free(survey: &Survey) -> usize
    ensures { let e = survey.now.evening in
        result ≡ length (filter (free e.stands.now (gates_in e.taken)) (range_with_len 1 e.n)) }
{
    (1..survey.evening.n + 1)
        .filter(|&variable| is_free_in(survey, variable))
        .count()
}

/// Lays the F line of a variable, if it is fixed.
#[tactic(auto, using(texts::proofs::LaySteps::laid_none), unfolding(rules::specs::Listing::line_f, rules::specs::Listing::line))]
fn put_fixed(laying: &mut Laying, stands: &[u16], variable: usize)
    requires { variable ≤ 1024 }
    ensures { laid laying.new ≡ lay (laid laying.old) (cond (fixed stands.now variable) (line_f stands.now variable) []) }
{
    if is_fixed(stands, variable) {
        put_numbers(laying, b"F", &[variable, stands_for(stands, variable)]);
    }
}

/// Lays the line of a linked variable: it and its root literal.
#[tactic(auto, using(crate::proofs::Walks::lined_two), unfolding(rules::specs::Listing::line_l, rules::specs::Listing::line))]
fn put_line_l(laying: &mut Laying, stands: &[u16], variable: usize)
    requires { variable ≤ 1024 }
    ensures { laid laying.new ≡ lay (laid laying.old) (line_l stands.now variable) }
{
    laying.put(b"L");
    put_number_field(laying, variable);
    put_signed_field(laying, stands_for(stands, variable));
    laying.put(b"\n");
}

/// Lays the L line of a variable, if it is linked.
#[tactic(auto, using(texts::proofs::LaySteps::laid_none))]
fn put_linked(laying: &mut Laying, stands: &[u16], variable: usize)
    requires { variable ≤ 1024 }
    ensures { laid laying.new ≡ lay (laid laying.old) (cond (linked stands.now variable) (line_l stands.now variable) []) }
{
    if is_linked(stands, variable) {
        put_line_l(laying, stands, variable);
    }
}

/// Lays the F lines.
pub fn put_lines_f(laying: &mut Laying, stands: &[u16], n: usize)
    requires { n ≤ 1024 }
    ensures { laid laying.new ≡ lay (laid laying.old) (flat_map (line_f stands.now) (filter (fixed stands.now) (range_with_len 1 n))) }
{
    for variable in 1..=n {
        put_fixed(laying, stands, variable);
    }
}

/// Lays the L lines.
pub fn put_lines_l(laying: &mut Laying, stands: &[u16], n: usize)
    requires { n ≤ 1024 }
    ensures { laid laying.new ≡ lay (laid laying.old) (flat_map (line_l stands.now) (filter (linked stands.now) (range_with_len 1 n))) }
{
    for variable in 1..=n {
        put_linked(laying, stands, variable);
    }
}

/// Lays the V line of a variable, if it is free.
#[tactic(auto, using(texts::proofs::LaySteps::laid_none), unfolding(rules::specs::Listing::line_v, rules::specs::Listing::line))]
fn put_free(laying: &mut Laying, survey: &Survey, variable: usize)
    ensures { let e = survey.now.evening in
        laid laying.new ≡ lay (laid laying.old) (cond (free e.stands.now (gates_in e.taken) variable) (line_v variable) []) }
{
    if is_free_in(survey, variable) {
        put_numbers(laying, b"V", &[variable]);
    }
}

/// Lays the V lines.
pub fn put_lines_v(laying: &mut Laying, survey: &Survey)
    ensures { let e = survey.now.evening in
        laid laying.new ≡ lay (laid laying.old) (flat_map line_v (filter (free e.stands.now (gates_in e.taken)) (range_with_len 1 e.n))) }
{
    for variable in 1..=survey.evening.n {
        put_free(laying, survey, variable);
    }
}
