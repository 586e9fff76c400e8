// What a build answers.

/// What an accepted build returns beside its listing.
#[derive(Clone, Copy, Debug, PartialEq, Eq)]
pub struct Built {
    /// The rounds run.
    pub rounds: usize,
    /// The bytes of the listing.
    pub bytes: usize,
}
