// What each variable stands for, by the pairs.
ghost use Rattle.std.specs.Prelude.{◌≡◌, ◌+◌, ◌-◌, ◌*◌, ◌<◌, ◌≤◌, ◌^◌, map, length};
ghost use Rattle.std.specs.List.{All};
ghost use Rattle.tables.specs.Sizes.{most_variables};
ghost use Rattle.tables.specs.Literal.{literal, var};
ghost use Rattle.rules.specs.Pairs.{replace, starting, alone, give_way, meet, join};
ghost use Rattle.pairing.specs.Pairs.{Coded};

use rules::marks::is_marked;
use rules::standing::stands_for;
use tables::literal::{is_negative, literal, opposite, var};

/// What each variable stands for: a row with a literal of one of the row's variables, or 0 or 1, for each variable.
#[derive(Drop)]
pub struct Stands<'a> {
    row: &'a mut [u16],
    ghost few: { length row.now ≤ most_variables + 1 },
    ghost coded: { Coded row.now },
}

/// What a variable stands for at first: a forced one for its value, any other for itself.
#[tactic(auto, unfolding(rules::specs::Pairs::alone))]
fn alone(marks: &[u8], variable: usize) -> usize
    requires { variable ≤ most_variables + 1 }
    ensures is { result ≡ alone marks.now variable }
    ensures within { result ≤ 2 * (most_variables + 1) }
{
    if is_marked(marks, 2 * variable) {
        1
    } else if is_marked(marks, 2 * variable + 1) {
        0
    } else {
        2 * variable
    }
}

/// What stands in the place of a literal once a higher one has given way to a lower.
#[tactic(auto, unfolding(rules::specs::Pairs::give_way))]
fn give_way(low: usize, high: usize, literal: usize) -> usize
    requires { low + 1 < 2 ^ 16 }
    ensures is { result ≡ give_way low high literal }
    ensures within { literal < 2 ^ 16 → result < 2 ^ 16 }
{
    if literal == high {
        low
    } else if literal == opposite(high) {
        opposite(low)
    } else {
        literal
    }
}

/// Lets a higher literal give way to a lower one in a whole row.
#[tactic(auto, using(crate::proofs::StandSteps::relabel_turns))]
fn relabel(row: &mut [u16], low: usize, high: usize)
    requires { low + 1 < 2 ^ 16 }
    ensures { row.new ≡ map (give_way low high) row.old }
{
    for place in row.iter_mut() {
        *place = give_way(low, high, usize::from(*place)) as u16;
    }
}

/// Makes two literals stand for one: that of the higher variable gives way.
#[tactic(auto, unfolding(rules::specs::Pairs::meet))]
fn meet(row: &mut [u16], a: usize, b: usize)
    requires a_fits { a + 1 < 2 ^ 16 }
    requires b_fits { b + 1 < 2 ^ 16 }
    ensures { row.new ≡ meet a b row.old }
{
    if var(a) == var(b) {
        return;
    }
    if var(a) < var(b) {
        relabel(row, a, b);
    } else {
        relabel(row, b, a);
    }
}

impl<'a> Stands<'a> {
    /// Each variable at first: a forced one stands for its value, any other for itself.
    #[tactic(auto, using(crate::proofs::StandSteps::start_ends))]
    pub fn start(row: &'a mut [u16], marks: &[u8]) -> Stands<'a>
        requires some { 1 ≤ length row.old }
        requires few { length row.old ≤ most_variables + 1 }
        ensures is { result.row.now ≡ starting (length row.old - 1) marks.now }
        ensures same_row { result.row.ghost_name ≡ row.entry.ghost_name }
    {
        for (variable, place) in row.iter_mut().enumerate() {
            *place = alone(marks, variable) as u16;
        }
        // No variable is 0.
        row[0] = 0;
        Stands { row }
    }
}

impl Stands<'_> {
    /// What a literal is replaced by.
    #[tactic(auto, unfolding(rules::specs::Pairs::replace))]
    pub fn replacement(&self, literal: usize) -> usize
        ensures { result ≡ replace self.now.row.now literal }
    {
        let standing = stands_for(self.row, var(literal));
        if is_negative(literal) {
            opposite(standing)
        } else {
            standing
        }
    }

    /// Makes the two literals of a clause stand for opposites.
    #[tactic(auto, using(crate::proofs::StandSteps::two_sides, crate::proofs::StandSteps::replace_coded), unfolding(rules::specs::Pairs::join))]
    pub fn join(&mut self, clause: &[i32])
        requires two { length clause.now ≡ 2 }
        requires inside { All (λ e. var (literal e) < length self.old.row.now) clause.now }
        ensures { self.new.row.now ≡ join self.old.row.now (map literal clause.now) }
    {
        let first = self.replacement(literal(clause[0]));
        let second = self.replacement(literal(clause[1]));
        meet(self.row, first, opposite(second));
    }

    /// Takes each variable one round further: what it stood for is replaced by what that stands for.
    #[tactic(auto, using(crate::proofs::StandSteps::follow_turns, crate::proofs::StandSteps::replace_fits))]
    pub fn follow(&self, all: &mut [u16])
        requires { All (λ l. l < 2 * length self.now.row.now) all.old }
        ensures is { all.new ≡ map (replace self.now.row.now) all.old }
        ensures still_inside { All (λ l. l < 2 * length self.now.row.now) all.new }
    {
        for place in all.iter_mut() {
            *place = self.replacement(usize::from(*place)) as u16;
        }
    }
}
