// Patterns in code: which and-forms and parity groups stand in the settled table, found through an index of its clauses.
#![tactic(auto)]

pub mod andform;
pub mod chain;
pub mod index;
pub mod parity;
pub mod partners;
pub mod signs;
