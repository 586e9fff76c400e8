// What an anchor is offered as: its parity group with each variable as the output, and then its and-forms.
ghost use Rattle.std.specs.Prelude.{◌≡◌, ◌<◌, [], ◌∷◌, length};
ghost use mathlib.Core.List.{Memᴰ};
ghost use Rattle.std.specs.List.{filter};
ghost use Rattle.rules.specs.Patterns.{and_form, found};
ghost use Rattle.rules.specs.Taking as rules;
ghost use Rattle.taking.specs.Anchors.{IsClause, literals, groups, forms};
ghost use Rattle.taking.specs.Offered.{Offered, row, table, gates, may};

use crate::anchor::Anchor;
use crate::offer::Taking;
use patterns::andform::and_form_found;
use patterns::parity::parity_found;
use tables::literal::literal;

/// The least width of an anchor.
const LEAST_WIDTH: usize = 3;

impl Taking<'_, '_> {
    /// Offers the anchor's parity group, if it is found, with each variable as the output in turn, until it is allowed.
    fn offer_group(&mut self, anchor: Anchor) -> bool
        requires clause { IsClause (row self.old) anchor }
        requires some { 0 < length (literals (row self.old) anchor) }
        ensures { Offered self.old self.new result (groups (table self.old) (literals (row self.old) anchor)) }
    {
        let index = self.index;
        let entries = anchor.entries(index.row);
        if !parity_found(&index, entries) {
            return false;
        }
        for &entry in entries {
            if self.offer(anchor.group(literal(entry))) {
                return true;
            }
        }
        false
    }

    /// Offers the anchor's and-form with this output, if it is found.
    fn offer_form(&mut self, anchor: Anchor, output: usize) -> bool
        requires clause { IsClause (row self.old) anchor }
        requires output { Memᴰ output (literals (row self.old) anchor) }
        ensures { Offered self.old self.new result (filter (found (table self.old)) (and_form (literals (row self.old) anchor) output ∷ [])) }
    {
        let index = self.index;
        if !and_form_found(&index, anchor.entries(index.row), output) {
            return false;
        }
        self.offer(anchor.form(output))
    }

    /// Offers the anchor's and-forms, each literal as the output in turn, until one is allowed.
    fn offer_forms(&mut self, anchor: Anchor) -> bool
        requires { IsClause (row self.old) anchor }
        ensures { Offered self.old self.new result (forms (table self.old) (literals (row self.old) anchor)) }
    {
        let index = self.index;
        for &entry in anchor.entries(index.row) {
            if self.offer_form(anchor, literal(entry)) {
                return true;
            }
        }
        false
    }

    /// Takes the anchor's first candidate that is allowed.
    pub fn take_at(&mut self, anchor: Anchor)
        requires { IsClause (row self.old) anchor }
        ensures row { row self.new ≡ row self.old }
        ensures n { self.new.n ≡ self.old.n }
        ensures gates { gates self.new ≡ rules.take_at (may self.old) self.old.n (table self.old) (gates self.old) (literals (row self.old) anchor) }
    {
        let index = self.index;
        if anchor.entries(index.row).len() < LEAST_WIDTH {
            return;
        }
        if self.offer_group(anchor) {
            return;
        }
        self.offer_forms(anchor);
    }
}
