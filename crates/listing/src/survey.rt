// The gates taken, looked over before the listing is laid.
ghost use Rattle.std.specs.Prelude.{◌≡◌, ℕ};
ghost use Rattle.rules.specs.Forced.{marked};
ghost use Rattle.rules.specs.Taking.{is_output};
ghost use Rattle.rules.specs.Circuit.{levels};
ghost use Rattle.gates.specs.Sites.{gates_of};
ghost use Rattle.filling.specs.Places.{IsPlaced};
ghost use Rattle.listing.specs.Chains.{Chained};

use crate::evening::Evening;

/// An evening; by variable: is it an output, and of which gate; and the variables on each level.
#[derive(Clone, Copy)]
pub struct Survey<'a> {
    pub evening: Evening<'a>,
    pub outputs: &'a [u8],
    pub places: &'a [u16],
    pub firsts: &'a [u16],
    pub nexts: &'a [u16],
    ghost marked: { (v : ℕ) → marked outputs.now v ≡ is_output (gates_of evening.taken.row.now evening.taken.sites.now) v },
    ghost placed: { IsPlaced evening.taken.sites.now places.now },
    ghost chained: { Chained evening.n (levels evening.n (gates_of evening.taken.row.now evening.taken.sites.now)) firsts.now nexts.now },
}
