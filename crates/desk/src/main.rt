// The desk: the clause file that the argument names, and commands on standard input, one a line. Each is answered on standard
// output, in one line, or in the listing's lines, until the input ends.
//
// Proved here: which of the six commands a line's first word names, what it is told by the words behind it, and that a line's
// words are its tokens. The moves are those of `nights`, and the listing, the fill and the ask those of `builder`, each proved
// there to answer what the definitions say. Not proved: what comes from the file and from standard input, and what is printed.
// The arguments are the library's own copies; nothing else is on the heap.
#![tactic(auto)]

mod command;
mod desk;
mod lines;
mod verb;
mod words;

use crate::desk::Desk;
use crate::lines::{MOST_LINE, next_line};
use crate::words::Refused;
use intake::fill;
use rules::book::Book;
use std::fs::File;
use std::{env, io};
use tables::sizes::{MOST_BYTES, MOST_ENTRIES, WORK_ROOM};
use texts::reading::read;

/// Answers the commands on standard input, to its end.
fn answer_all(rt: &HostRuntime, desk: &mut Desk) -> io::Result<()> {
    let mut input = rt.reader();
    let mut line = [0; MOST_LINE];
    for _ in 0..u64::MAX {
        let Some(length) = next_line(&mut input, &mut line)? else {
            break;
        };
        if length > line.len() {
            println!(rt; "not understood: a line has at most {MOST_LINE} bytes")?;
        } else {
            desk.answer(rt, line.split_at(length).0)?;
        }
    }
    Ok(())
}

/// Opens the desk over the table that a text says.
fn open_desk(rt: &HostRuntime, text: &[u8]) -> io::Result<()> {
    let mut row = [0; MOST_ENTRIES];
    let mut work = [0; WORK_ROOM];
    match read(text, &mut row) {
        Err(why) => println!(rt; "{}", Refused(why)),
        Ok(read) => answer_all(
            rt,
            &mut Desk {
                n: read.variables,
                table: row.split_at(read.entries).0,
                book: Book::new(),
                work: &mut work,
            },
        ),
    }
}

/// Opens the desk over a clause file.
fn open_file(rt: &HostRuntime, path: &str) -> io::Result<()> {
    // One byte more than a text may have, so that a longer one is seen.
    let mut text = [0; MOST_BYTES + 1];
    let read = fill(&mut File::open(rt, path)?, &mut text)?;
    open_desk(rt, text.split_at(read).0)
}

fn main(rt: HostRuntime) -> io::Result<()> {
    let mut args = env::args(&rt)?.skip(1);
    match (args.next(), args.next()) {
        (Some(path), None) => open_file(&rt, path.as_str()),
        _ => println!(rt; "not understood: desk FILE"),
    }
}
