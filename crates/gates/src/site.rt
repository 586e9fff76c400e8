// Where a gate stands in the settled table: its anchor, and which of the anchor's literals is the output. All else of a gate
// follows from these (`gate_of`).

/// A gate found at an anchor.
#[derive(Clone, Copy, Debug, Default, PartialEq, Eq)]
pub struct Site {
    /// The anchor's first entry in the row.
    pub start: usize,
    /// The anchor's ending zero.
    pub end: usize,
    /// The literal of the anchor that is the output: of the and-form the o, of parity one whose variable is the output.
    pub output: usize,
    /// Is it a parity group, or an and-form?
    pub parity: bool,
}

impl Site {
    ghost use Rattle.std.specs.Prelude.{◌≡◌};
    ghost use Rattle.gates.specs.Sites.{Within, entries_of};

    /// The anchor: its own stretch of the row.
    pub fn anchor(self, row: &[i32]) -> &[i32]
        requires { Within row.now self }
        ensures { result.now ≡ entries_of row.now self }
    {
        &row[self.start..self.end]
    }
}
