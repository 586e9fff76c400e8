// Pairs in code, what each variable stands for by them, and the substitution of that in a row.
#![tactic(auto)]

pub mod pair_chains;
pub mod pairs;
pub mod stands;
pub mod substitute;
