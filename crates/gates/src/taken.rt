// The gates taken from a settled table, in an order of evaluation: each stands behind those that its inputs depend on.
ghost use Rattle.std.specs.List.{All};
ghost use Rattle.gates.specs.Sites.{Within};

use crate::site::Site;

/// The gates taken, and the settled table where they stand.
#[derive(Clone, Copy)]
pub struct Taken<'a> {
    /// The settled table.
    pub row: &'a [i32],
    pub sites: &'a [Site],
    ghost within: { All (Within row.now) sites.now },
}
