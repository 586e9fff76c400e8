// The listing of a settled evening: one record a line.
#![tactic(auto)]

pub mod chains;
pub mod clause_lines;
pub mod evening;
pub mod fields;
pub mod gate_lines;
pub mod listing;
pub mod refused;
pub mod survey;
pub mod variables;
