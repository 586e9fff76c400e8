// The numbers that the builder returns: why a call refuses, and what its place says.
ghost use Rattle.std.specs.Prelude.{◌≡◌};

use crate::sizes::{MOST_PINS, WORK_ROOM};

/// Why a call refuses. What was lent to it is then as it was found.
#[derive(Clone, Copy, Debug, PartialEq, Eq)]
pub enum Refusal {
    /// The text is not of the format, at this byte.
    Unreadable(usize),
    /// A size is passed, at this byte or entry.
    TooLarge(usize),
    /// A literal beyond n, an unfinished clause, or another number of clauses than declared, at this byte or entry.
    Undeclared(usize),
    /// A contradiction, in this round.
    Contradiction(usize),
    /// A pin or the asked variable is out of range.
    OutOfRange,
    /// The pin book is full, or its length is above 64.
    BookFull,
    /// There is nothing to take back.
    NothingHeld,
    /// The result buffer or the value buffer is short of this room.
    ShortBuffer(usize),
    /// The work buffer is short.
    ShortWork,
    /// The value of this free variable, the lowest such, is neither 0 nor 1.
    BadValue(usize),
}

impl Refusal {
    ghost use Rattle.tables.specs.Numbers.{number_of, place_of};

    /// The refusal's number, from 1 to 10.
    pub fn number(self) -> u32
        ensures { result ≡ number_of self }
    {
        match self {
            Refusal::Unreadable(_) => 1,
            Refusal::TooLarge(_) => 2,
            Refusal::Undeclared(_) => 3,
            Refusal::Contradiction(_) => 4,
            Refusal::OutOfRange => 5,
            Refusal::BookFull => 6,
            Refusal::NothingHeld => 7,
            Refusal::ShortBuffer(_) => 8,
            Refusal::ShortWork => 9,
            Refusal::BadValue(_) => 10,
        }
    }

    /// The place that is returned beside the number.
    pub fn place(self) -> usize
        ensures { result ≡ place_of self }
    {
        match self {
            Refusal::Unreadable(place) | Refusal::TooLarge(place) | Refusal::Undeclared(place) =>
                place,
            Refusal::Contradiction(round) => round,
            Refusal::OutOfRange | Refusal::NothingHeld => 0,
            Refusal::BookFull => MOST_PINS,
            Refusal::ShortBuffer(room) => room,
            Refusal::ShortWork => WORK_ROOM,
            Refusal::BadValue(variable) => variable,
        }
    }
}
