// Cleaning in code: clauses that go, literals that go, and each clause in its order.
#![tactic(auto)]

pub mod clean;
pub mod tidy;
