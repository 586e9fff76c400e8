// The desk at work: each command over the proved functions, and its answer printed.
use crate::command::{Command, command_of};
use crate::lines::MOST_LINE;
use crate::words::{Refused, correction};
use builder::ask::ask;
use builder::build::build;
use builder::fill::fill;
use nights::night::{Move, make};
use rules::book::Book;
use std::io;
use std::io::Write;
use tables::numbers::Refusal;
use tables::sizes::{MOST_BYTES, MOST_VARIABLES};

/// A table, the pins over it, and the work buffer lent to every call.
#[derive(Drop)]
pub struct Desk<'a> {
    pub n: usize,
    pub table: &'a [i32],
    pub book: Book,
    pub work: &'a mut [i32],
}

/// Values as a line gives them: 0 and 1 for these digits, and for any other byte a value that is neither.
fn bits_of<'a>(digits: &[u8], bits: &'a mut [u8]) -> &'a [u8] {
    for (bit, &digit) in bits.iter_mut().zip(digits) {
        *bit = digit.wrapping_sub(b'0');
    }
    bits.split_at(digits.len().min(bits.len())).0
}

/// The digits of values.
fn digits_of(bits: &mut [u8]) {
    for bit in bits {
        *bit = b'0'.wrapping_add(*bit);
    }
}

/// Prints a refusal.
fn answer_refusal(rt: &impl Print, why: Refusal) -> io::Result<()> {
    println!(rt; "{}", Refused(why))
}

impl Desk<'_> {
    /// Pins.
    fn answer_pin(&mut self, rt: &impl Print, entry: i32) -> io::Result<()> {
        match make(
            self.n,
            self.table,
            &mut self.book,
            self.work,
            Move::Pin(entry),
        ) {
            Ok(()) => println!(rt; "pinned {entry}"),
            Err(why) => answer_refusal(rt, why),
        }
    }

    /// Takes the last pin back.
    fn answer_back(&mut self, rt: &impl Print) -> io::Result<()> {
        let last = self.book.in_force().last().copied().unwrap_or(0);
        match make(self.n, self.table, &mut self.book, self.work, Move::Back) {
            Ok(()) => println!(rt; "took back {last}"),
            Err(why) => answer_refusal(rt, why),
        }
    }

    /// Prints the listing.
    fn answer_show(&mut self, rt: &impl Print) -> io::Result<()> {
        let mut out = [0; MOST_BYTES];
        match build(self.n, self.table, &self.book, self.work, &mut out) {
            Ok(built) => io::writer(rt).write_all(out.split_at(built.bytes.min(MOST_BYTES)).0),
            Err(why) => answer_refusal(rt, why),
        }
    }

    /// Fills in all variables, and prints their digits.
    fn answer_fill(&mut self, rt: &impl Print, digits: &[u8]) -> io::Result<()> {
        let mut bits = [0; MOST_LINE];
        let given = bits_of(digits, &mut bits);
        let mut values = [0; MOST_VARIABLES];
        match fill(
            self.n,
            self.table,
            &self.book,
            self.work,
            given,
            &mut values,
        ) {
            Ok(()) => {
                digits_of(&mut values);
                print!(rt; "values ")?;
                io::writer(rt).write_all(values.split_at(self.n.min(MOST_VARIABLES)).0)?;
                println!(rt; "")
            }
            Err(why) => answer_refusal(rt, why),
        }
    }

    /// Asks for one variable.
    fn answer_ask(&mut self, rt: &impl Print, variable: usize, digits: &[u8]) -> io::Result<()> {
        let mut bits = [0; MOST_LINE];
        let given = bits_of(digits, &mut bits);
        match ask(self.n, self.table, &self.book, self.work, given, variable) {
            Ok(value) => println!(rt; "{variable} is {}", u8::from(value)),
            Err(why) => answer_refusal(rt, why),
        }
    }

    /// Prints the pins in force.
    fn answer_pins(&self, rt: &impl Print) -> io::Result<()> {
        print!(rt; "pins")?;
        for pin in self.book.in_force() {
            print!(rt; " {pin}")?;
        }
        println!(rt; "")
    }

    /// Answers a line.
    pub fn answer(&mut self, rt: &impl Print, line: &[u8]) -> io::Result<()> {
        match command_of(line) {
            Ok(Command::Pin(entry)) => self.answer_pin(rt, entry),
            Ok(Command::Back) => self.answer_back(rt),
            Ok(Command::Show) => self.answer_show(rt),
            Ok(Command::Fill(digits)) => self.answer_fill(rt, digits),
            Ok(Command::Ask(variable, digits)) => self.answer_ask(rt, variable, digits),
            Ok(Command::Pins) => self.answer_pins(rt),
            Err(why) => println!(rt; "not understood: {}", correction(why)),
        }
    }
}
