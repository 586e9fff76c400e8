// The pin book in code: a pin and a take-back, by value and over a lent book.
#![tactic(auto)]

pub mod pin;
pub mod takeback;
