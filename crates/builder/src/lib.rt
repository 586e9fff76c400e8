// The calls of the builder over a table and a book: build, fill, ask.
#![tactic(auto)]

pub mod ask;
pub mod build;
pub mod evening;
pub mod fill;
pub mod program;
pub mod values;
