// An anchor: the clause of the settled table at which gates are looked for.
use gates::site::Site;

/// Where an anchor stands in the row.
#[derive(Clone, Copy, Debug, PartialEq, Eq)]
pub struct Anchor {
    /// Its first entry.
    pub start: usize,
    /// Its ending zero.
    pub end: usize,
}

impl Anchor {
    ghost use Rattle.std.specs.Prelude.{◌≡◌, slice_range};
    ghost use Rattle.taking.specs.Anchors.{IsClause, group_site, form_site};

    /// The anchor's own stretch of the row, without its zero.
    pub fn entries(self, row: &[i32]) -> &[i32]
        requires { IsClause row.now self }
        ensures { result.now ≡ slice_range row.now self.start self.end }
    {
        &row[self.start..self.end]
    }

    /// The gate of its parity group with the variable of a literal as the output.
    pub fn group(self, output: usize) -> Site
        ensures { result ≡ group_site self output }
    {
        Site {
            start: self.start,
            end: self.end,
            output,
            parity: true,
        }
    }

    /// The and-form with a literal as the output.
    pub fn form(self, output: usize) -> Site
        ensures { result ≡ form_site self output }
    {
        Site {
            start: self.start,
            end: self.end,
            output,
            parity: false,
        }
    }
}
