// What was promised, as theorems about the definitions. Each function here has statements for its contract and nothing to do:
// so the check of this crate is the proof of every one of them.
#![tactic(auto)]

pub mod back;
pub mod laws;
