// The R lines: the clauses of the settled table that are in no gate's pattern.
ghost use Rattle.std.specs.Prelude.{◌≡◌, cond, not, [], map, length};
ghost use Rattle.std.specs.List.{flat_map};
ghost use Rattle.tables.specs.Literal.{literal};
ghost use Rattle.tables.specs.Clause.{clauses};
ghost use Rattle.rules.specs.Circuit.{in_pattern, residue};
ghost use Rattle.rules.specs.Listing.{line_r};
ghost use Rattle.texts.specs.Decimal.{signed};
ghost use Rattle.texts.specs.Laying.{laid, lay};
ghost use Rattle.gates.specs.TakenGates.{gates_in};
ghost use Rattle.listing.specs.Fields.{fields};

use crate::fields::put_signed_field;
use crate::survey::Survey;
use filling::residue::in_pattern;
use tables::literal::literal;
use tables::rows::clauses_of;
use texts::pieces::Laying;

/// Lays the literals of a clause.
#[tactic(auto, using(crate::proofs::Walks::literal_on, crate::proofs::Walks::literal_ends))]
fn put_literals(laying: &mut Laying, clause: &[i32])
    ensures { laid laying.new ≡ lay (laid laying.old) (fields (map signed (map literal clause.now))) }
{
    for &entry in clause {
        put_signed_field(laying, literal(entry));
    }
}

/// Lays the line of a clause.
#[tactic(auto, using(texts::proofs::LaySteps::laid_behind), unfolding(rules::specs::Listing::line_r, rules::specs::Listing::line))]
fn put_line_r(laying: &mut Laying, clause: &[i32])
    ensures { laid laying.new ≡ lay (laid laying.old) (line_r (map literal clause.now)) }
{
    laying.put(b"R");
    put_literals(laying, clause);
    laying.put(b"\n");
}

/// Whether a clause is residue.
fn is_residue(survey: &Survey, clause: &[i32]) -> bool
    ensures { result ≡ not (in_pattern (gates_in survey.now.evening.taken) (map literal clause.now)) }
{
    !in_pattern(&survey.evening.taken, survey.places, clause)
}

/// Lays the line of a clause, if it is residue.
#[tactic(auto, using(texts::proofs::LaySteps::laid_none))]
fn put_residue(laying: &mut Laying, survey: &Survey, clause: &[i32])
    ensures { let c = map literal clause.now in
        laid laying.new ≡ lay (laid laying.old) (cond (not (in_pattern (gates_in survey.now.evening.taken) c)) (line_r c) []) }
{
    if is_residue(survey, clause) {
        put_line_r(laying, clause);
    }
}

/// How many clauses are residue.
pub fn count_residue(survey: &Survey) -> usize
    ensures { let taken = survey.now.evening.taken in
        result ≡ length (residue (gates_in taken) (clauses taken.row.now)) }
{
    clauses_of(survey.evening.taken.row)
        .filter(|clause| is_residue(survey, clause))
        .count()
}

/// Lays the R lines.
#[tactic(auto, using(crate::proofs::Walks::residue_on, crate::proofs::Walks::residue_ends))]
pub fn put_lines_r(laying: &mut Laying, survey: &Survey)
    ensures { let taken = survey.now.evening.taken in
        laid laying.new ≡ lay (laid laying.old) (flat_map line_r (residue (gates_in taken) (clauses taken.row.now))) }
{
    for clause in clauses_of(survey.evening.taken.row) {
        put_residue(laying, survey, clause);
    }
}
