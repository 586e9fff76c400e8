// The command that a line says: a name, and what the name wants behind it.
ghost use Rattle.std.specs.Prelude.{◌≡◌, ◌∷◌, [], MatchOption, MatchResult, get_or, drop};
ghost use Rattle.desk.specs.Names.{name, words};
ghost use Rattle.desk.specs.declared.command.Command.{Command};
ghost use Rattle.desk.specs.Commands.{verb_in, most_words, to_come, Begins, Says, Misreads};

use crate::verb::{Verb, verb_of};
use tables::literal::entry;
use texts::numerals::{natural, number};
use texts::tokens::{bytes_of, next_token};

/// A command. Values are a digit for each variable.
#[derive(Clone, Copy, Debug, PartialEq, Eq)]
pub enum Command<'a> {
    Pin(i32),
    Back,
    Show,
    Fill(&'a [u8]),
    Ask(usize, &'a [u8]),
    Pins,
}

/// Why a line is no command.
#[derive(Clone, Copy, Debug, PartialEq, Eq)]
pub enum Misread {
    /// Its first word names none.
    Unknown,
    /// Behind the name stands not what it wants.
    Wants(Verb),
}

/// The words of a line that are still to come.
#[derive(Clone, Copy, Drop)]
struct Words<'a> {
    rest: &'a [u8],
}

impl<'a> Words<'a> {
    /// Takes the next word.
    #[tactic(auto, using(crate::proofs::LineWords::no_words, crate::proofs::LineWords::one_word))]
    fn next_word(&mut self) -> Option<&'a [u8]>
        ensures { MatchOption result ((words self.old.rest.now ≡ []) × (words self.new.rest.now ≡ [])) (λ word. words self.old.rest.now ≡ word.now ∷ words self.new.rest.now) }
    {
        let token = next_token(self.rest, 0)?;
        let word = bytes_of(self.rest, token);
        self.rest = self.rest.split_at(token.end).1;
        Some(word)
    }

    /// Takes the next word as values: none stand where the line ends.
    fn next_values(&mut self) -> &'a [u8]
        ensures values { result.now ≡ get_or (words self.old.rest.now) 0 [] }
        ensures left { words self.new.rest.now ≡ drop 1 (words self.old.rest.now) }
    {
        self.next_word().unwrap_or(&[])
    }
}

/// What a name wants, out of the words behind it.
#[tactic(auto, using(crate::proofs::LineWords::no_variable, crate::proofs::LineWords::no_literal))]
fn wanted<'a>(verb: Verb, words: &mut Words<'a>) -> Option<Command<'a>>
    ensures { let behind = to_come words.old in
        MatchOption result ((command : Command) → verb_in command ≡ verb → ¬ (Begins command behind))
        (λ command. (verb_in command ≡ verb) × Begins command behind × (to_come words.new ≡ drop (most_words verb) behind)) }
{
    Some(match verb {
        Verb::Pin => Command::Pin(entry(number(words.next_word()?)?)),
        Verb::Back => Command::Back,
        Verb::Show => Command::Show,
        Verb::Fill => Command::Fill(words.next_values()),
        Verb::Ask => Command::Ask(natural(words.next_word()?)?, words.next_values()),
        Verb::Pins => Command::Pins,
    })
}

/// The command that a line says: that of its first word. A line is misread only where that names none, or wants other words.
pub fn command_of(line: &[u8]) -> Result<Command<'_>, Misread>
    ensures { let first = get_or (words line.now) 0 [] in let behind = drop 1 (words line.now) in
        MatchResult result (λ command. (first ≡ name (verb_in command)) × Says command behind) (λ why. Misreads why first behind) }
{
    let mut words = Words { rest: line };
    let first = words.next_word().ok_or(Misread::Unknown)?;
    let verb = verb_of(first).ok_or(Misread::Unknown)?;
    let command = wanted(verb, &mut words).ok_or(Misread::Wants(verb))?;
    match words.next_word() {
        None => Ok(command),
        Some(_) => Err(Misread::Wants(verb)),
    }
}
