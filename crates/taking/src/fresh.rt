// The variables that no gate taken speaks of yet, as a row of marks: nothing but itself depends on such a one, and none of the
// gates has to be looked at.
ghost use Rattle.std.specs.Prelude.{◌≡◌, set};
ghost use Rattle.std.specs.List.{fold};
ghost use Rattle.gates.specs.Sites.{Within, entries_of};
ghost use Rattle.taking.specs.Fresh.{leave, leave_all};

use gates::site::Site;
use tables::literal::{literal, var};

/// Takes a number out of the set, if the row has a place for it.
fn unmark(marks: &mut [u8], number: usize)
    ensures { marks.new ≡ set marks.old number 0 }
{
    if number < marks.len() {
        marks[number] = 0;
    }
}

/// Takes the variables of the gate's anchor out.
fn leave_anchor(row: &[i32], site: Site, fresh: &mut [u8])
    requires { Within row.now site }
    ensures { fresh.new ≡ fold leave fresh.old (entries_of row.now site) }
{
    for &entry in site.anchor(row) {
        unmark(fresh, var(literal(entry)));
    }
}

/// Takes the variables of a gate out: those of its anchor, and its output.
pub fn leave_all(row: &[i32], site: Site, fresh: &mut [u8])
    requires { Within row.now site }
    ensures { fresh.new ≡ leave_all row.now fresh.old site }
{
    leave_anchor(row, site, fresh);
    unmark(fresh, var(site.output));
}
