// The words that name a command.
ghost use Rattle.std.specs.Prelude.{◌≡◌, ◌↔◌, Some};
ghost use Rattle.desk.specs.Names.{name};

/// What a command asks for.
#[derive(Clone, Copy, Debug, PartialEq, Eq)]
pub enum Verb {
    /// A pin.
    Pin,
    /// A take-back.
    Back,
    /// The listing.
    Show,
    /// All variables, from values for the free ones.
    Fill,
    /// One variable, from values for the free ones.
    Ask,
    /// The pins in force.
    Pins,
}

/// The command that a word names: each its own name, and no other word one.
pub fn verb_of(word: &[u8]) -> Option<Verb>
    ensures { (verb : Verb) → (result ≡ Some verb) ↔ (word.now ≡ name verb) }
{
    match word {
        b"pin" => Some(Verb::Pin),
        b"back" => Some(Verb::Back),
        b"show" => Some(Verb::Show),
        b"fill" => Some(Verb::Fill),
        b"ask" => Some(Verb::Ask),
        b"pins" => Some(Verb::Pins),
        _ => None,
    }
}
