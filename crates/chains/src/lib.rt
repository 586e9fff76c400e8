// The clauses of a row by a key of theirs, in chains, where the row grows at its end clause by clause.
#![tactic(auto)]

pub mod chain;
pub mod key;
