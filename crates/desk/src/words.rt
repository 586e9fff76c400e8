// What the desk says where it does not do what was asked.
use crate::command::Misread;
use crate::verb::Verb;
use std::fmt;
use tables::numbers::Refusal;

/// A refusal in words, behind its number and its place.
#[derive(Clone, Copy, Drop)]
pub struct Refused(pub Refusal);

impl fmt::Display for Refused {
    fn fmt<W: fmt::Write>(&self, f: &mut fmt::Formatter<W>) -> fmt::Result {
        let number = self.0.number();
        let place = self.0.place();
        write!(f, "refused {number} at {place}: ")?;
        match self.0 {
            Refusal::Unreadable(_) => write!(f, "the text is not of the format"),
            Refusal::TooLarge(_) => write!(f, "a size is passed"),
            Refusal::Undeclared(_) => write!(f, "the table is not as declared"),
            Refusal::Contradiction(round) => write!(f, "contradiction in round {round}"),
            Refusal::OutOfRange => write!(f, "no such variable"),
            Refusal::BookFull => write!(f, "the pin book is full"),
            Refusal::NothingHeld => write!(f, "nothing to take back"),
            Refusal::ShortBuffer(room) => write!(f, "room for {room} is wanted"),
            Refusal::ShortWork => write!(f, "the work buffer is short"),
            Refusal::BadValue(variable) => write!(
                f,
                "variable {variable} is free, and its value neither 0 nor 1"
            ),
        }
    }
}

/// How a command is said.
fn usage(verb: Verb) -> &'static str {
    match verb {
        Verb::Pin => "pin LITERAL",
        Verb::Back => "back",
        Verb::Show => "show",
        Verb::Fill => "fill VALUES",
        Verb::Ask => "ask VARIABLE VALUES",
        Verb::Pins => "pins",
    }
}

/// What a misread line should have been.
pub fn correction(why: Misread) -> &'static str {
    match why {
        Misread::Unknown => "pin, back, show, fill, ask or pins",
        Misread::Wants(verb) => usage(verb),
    }
}
