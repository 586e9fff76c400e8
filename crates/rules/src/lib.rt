// The rules from the rounds to the calls, as definitions, and what the calls take and answer.
#![tactic(auto)]

pub mod book;
pub mod built;
pub mod marks;
pub mod sides;
pub mod standing;
