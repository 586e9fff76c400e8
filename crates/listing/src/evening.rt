// A settled evening: what its listing is made of.
ghost use Rattle.std.specs.Prelude.{◌+◌, ◌≤◌, length};
ghost use Rattle.std.specs.List.{All};
ghost use Rattle.tables.specs.Literal.{literal, var};
ghost use Rattle.filling.specs.Outputs.{Apart, Speaking};

use gates::taken::Taken;

/// What the rounds and the taking of gates have left.
#[derive(Clone, Copy)]
pub struct Evening<'a> {
    /// The variables are numbered from 1 to this.
    pub n: usize,
    /// The rounds run.
    pub rounds: usize,
    /// What each variable stands for.
    pub stands: &'a [u16],
    /// The gates taken, and the settled table.
    pub taken: Taken<'a>,
    ghost few: { n ≤ 1024 },
    ghost few_rounds: { rounds ≤ n + 1 },
    ghost short: { length taken.row.now ≤ 16384 },
    ghost few_gates: { length taken.sites.now ≤ 1024 },
    ghost standing: { All (λ l. var l ≤ n) stands.now },
    ghost inside: { All (λ e. var (literal e) ≤ n) taken.row.now },
    ghost outputs: { All (λ s. var s.output ≤ n) taken.sites.now },
    ghost apart: { Apart taken.sites.now },
    ghost speaking: { Speaking taken.row.now taken.sites.now },
}
