// What the gates taken leave and give, in code: residue, levels, filling in, asking.
#![tactic(auto)]

pub mod ask;
pub mod fill;
pub mod levels;
pub mod places;
pub mod residue;
