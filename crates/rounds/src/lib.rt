// The rounds in code: one round out of its steps, and the loop over them.
#![tactic(auto)]

pub mod round;
pub mod settle;
