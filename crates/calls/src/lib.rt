// What every call over a table and a book begins with.
#![tactic(auto)]

pub mod opening;
