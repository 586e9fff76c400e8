// A night at the desk in code: a run of pins and take-backs over one book.
#![tactic(auto)]

pub mod night;
