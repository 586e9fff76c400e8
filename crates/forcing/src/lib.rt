// Forced literals in code, and the contradiction that they may be.
#![tactic(auto)]

pub mod contradiction;
pub mod force;
