// What every call returns over the boundary: the rules' numbers.
ghost use Rattle.std.specs.Prelude.{◌≡◌};
ghost use Rattle.boundary.specs.Answers.{told, accepted, refused, plain_numbers};

use tables::numbers::Refusal;

/// The number with its place, and two values that an accepted call also returns: 0 each on a refusal.
#[repr(C)]
#[derive(Clone, Copy)]
pub struct Answer {
    pub number: u32,
    pub place: usize,
    pub first: usize,
    pub second: usize,
}

/// An accepted call, with what is also returned.
#[tactic(auto, unfolding(crate::specs::Answers::accepted))]
pub fn accepted(first: usize, second: usize) -> Answer
    ensures { result ≡ accepted first second }
{
    Answer {
        number: 0,
        place: 0,
        first,
        second,
    }
}

/// A refusal.
#[tactic(auto, unfolding(crate::specs::Answers::refused))]
pub fn refused(why: Refusal) -> Answer
    ensures { result ≡ refused why }
{
    Answer {
        number: why.number(),
        place: why.place(),
        first: 0,
        second: 0,
    }
}

/// A call that returns nothing beside the number and the place.
#[tactic(auto, unfolding(crate::specs::Answers::told, crate::specs::Answers::plain_numbers, crate::specs::Answers::accepted, crate::specs::Answers::refused, rules::specs::Calls::numbers, rules::specs::Calls::returned))]
pub fn nothing_else(answer: Result<(), Refusal>) -> Answer
    ensures { result ≡ told (plain_numbers answer) }
{
    match answer {
        Ok(()) => accepted(0, 0),
        Err(why) => refused(why),
    }
}
