// A gate in code: where it stands in the settled table, its kind, inputs, output and rule of value.
#![tactic(auto)]

pub mod inputs;
pub mod kinds;
pub mod outputs;
pub mod site;
pub mod taken;
pub mod value;
