// Clause text, read into a table and written from one.
#![tactic(auto)]

pub mod body;
pub mod bytes;
pub mod decimal;
pub mod header;
pub mod numerals;
pub mod pieces;
pub mod reading;
pub mod tally;
pub mod tokens;
pub mod writing;
