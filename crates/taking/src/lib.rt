// Taking gates in code: of the patterns found, the first that is allowed, and its place among the gates taken.
#![tactic(auto)]

pub mod anchor;
pub mod candidates;
pub mod depends;
pub mod fresh;
pub mod offer;
pub mod place;
pub mod put;
pub mod take;
