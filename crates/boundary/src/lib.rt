// The boundary: the proved calls as a static library, for programs that are not Rattle. Numbers, slices and small records
// cross it; each export only hands on to the call that it is named after, and says again what that one promises.
#![tactic(auto)]

pub mod answer;
pub mod desk;
pub mod paper;
pub mod plans;
pub mod printing;
pub mod settled;
pub mod yard;
