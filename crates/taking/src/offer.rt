// The gates that are being taken, and the offer of one more.
ghost use Rattle.std.specs.Prelude.{◌≤◌, length, take};
ghost use Rattle.std.specs.List.{All};
ghost use Rattle.tables.specs.declared.sizes.TheConstants.{MOST_VARIABLES};
ghost use Rattle.tables.specs.Clause.{clauses};
ghost use Rattle.circuits.proofs.Taken;
ghost use Rattle.gates.specs.Sites.{Within, gates_of};
ghost use Rattle.taking.specs.Settled.{IsSettled};
ghost use Rattle.taking.specs.Fresh.{IsOut};

use crate::depends::{alone, dependents, is_touched};
use crate::fresh::leave_all;
use crate::put::put;
use gates::outputs::is_output;
use gates::site::Site;
use patterns::index::Index;
use rules::marks::is_marked;
use tables::literal::var;
use tables::sizes::{MOST_VARIABLES, VARIABLE_NUMBERS};

/// The gates taken so far from a settled table of the variables 1 to n, in an order of evaluation: the first `count` sites.
#[derive(Drop)]
pub struct Taking<'a, 'i> {
    pub n: usize,
    /// The settled table.
    pub index: Index<'i>,
    pub sites: &'a mut [Site],
    pub count: usize,
    /// The variables that no gate taken speaks of.
    pub fresh: [u8; VARIABLE_NUMBERS],
    pub ghost small: { n ≤ MOST_VARIABLES },
    pub ghost room: { n ≤ length sites.now },
    pub ghost few: { count ≤ n },
    pub ghost settled: { ∥ IsSettled n (clauses index.row.now) ∥₁ },
    pub ghost within: { All (Within index.row.now) (take count sites.now) },
    pub ghost out: { All (IsOut index.row.now fresh) (take count sites.now) },
    pub ghost taken: { ∥ Taken.Taken n (clauses index.row.now) (gates_of index.row.now (take count sites.now)) ∥₁ },
}

impl<'a, 'i> Taking<'a, 'i> {
    ghost use Rattle.std.specs.Prelude.{◌≡◌, ◌+◌, ◌≤◌, [], ◌∷◌, not, length, take};
    ghost use Rattle.std.specs.Bool.{OnTrue};
    ghost use Rattle.tables.specs.Literal.{var};
    ghost use Rattle.tables.specs.Clause.{clauses};
    ghost use Rattle.rules.specs.Taking.{dependents, is_output};
    ghost use Rattle.circuits.proofs.Taken.{Valid};
    ghost use Rattle.gates.specs.Sites.{Within, gate_of};
    ghost use Rattle.taking.specs.Settled.{IsSettled};
    ghost use Rattle.taking.specs.Offered.{Offered, row, table, gates, may};

    /// No gate yet: the sites are room for as many as there are variables.
    pub fn start(n: usize, index: Index<'i>, sites: &'a mut [Site]) -> Taking<'a, 'i>
        requires small { n ≤ MOST_VARIABLES }
        requires room { n ≤ length sites.old }
        requires settled { IsSettled n (clauses index.row.now) }
        ensures n { result.n ≡ n }
        ensures row { row result ≡ index.entry.row.now }
        ensures gates { gates result ≡ [] }
    {
        Taking {
            n,
            index,
            sites,
            count: 0,
            fresh: [1; VARIABLE_NUMBERS],
        }
    }

    /// The gates taken so far.
    pub fn taken(&self) -> &[Site]
        ensures { result.now ≡ take self.now.count self.now.sites.now }
    {
        &self.sites[..self.count]
    }

    /// Marks what depends on a variable through the gates taken, if it is no output yet; whether it is none.
    fn mark_dependents(&self, output: usize, marks: &mut [u8]) -> bool
        requires marks { length marks.old ≡ self.now.n + 1 }
        ensures is { result ≡ not (is_output (gates self.now) output) }
        ensures walked { OnTrue result (marks.new ≡ dependents self.now.n (gates self.now) output) }
    {
        if is_marked(&self.fresh, output) {
            alone(output, marks);
            return true;
        }
        if is_output(self.taken(), output) {
            return false;
        }
        dependents(self.index.row, self.taken(), output, marks);
        true
    }

    /// Whether a gate is allowed: its output is no output yet, and no input depends on it through the gates taken. Where it is
    /// allowed the marks are what depends on its output, as its place among the gates needs them.
    #[tactic(auto, using(gates::proofs::SiteLaws::output_at), unfolding(rules::specs::Taking::allowed))]
    fn is_allowed(&self, site: Site, marks: &mut [u8]) -> bool
        requires within { Within (row self.now) site }
        requires marks { length marks.old ≡ self.now.n + 1 }
        ensures is { result ≡ may self.now (gates self.now) (gate_of (row self.now) site) }
        ensures walked { OnTrue result (marks.new ≡ dependents self.now.n (gates self.now) (var site.output)) }
    {
        if !self.mark_dependents(var(site.output), marks) {
            return false;
        }
        !is_touched(self.index.row, site, marks)
    }

    /// Puts a gate in its place among those taken if it is allowed; whether it is.
    pub fn offer(&mut self, site: Site) -> bool
        requires within { Within (row self.old) site }
        requires valid { ∥ Valid self.old.n (table self.old) (gate_of (row self.old) site) ∥₁ }
        ensures { Offered self.old self.new result (gate_of (row self.old) site ∷ []) }
    {
        let mut marks = [0; VARIABLE_NUMBERS];
        let (marks, _) = marks.split_at_mut(self.n + 1);
        if !self.is_allowed(site, marks) {
            return false;
        }
        let last = is_marked(&self.fresh, var(site.output));
        put(self.sites, self.count, site, marks, last);
        leave_all(self.index.row, site, &mut self.fresh);
        self.count += 1;
        true
    }

    /// The gates taken, in the end.
    pub fn finish(self) -> &'a [Site]
        ensures { result.now ≡ take self.entry.count self.entry.sites.now }
    {
        let Taking { sites, count, .. } = self;
        &sites[..count]
    }
}
