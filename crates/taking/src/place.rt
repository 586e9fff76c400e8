// Where a gate is put among the gates taken: behind those that do not depend on its output, and before those that do.
ghost use Rattle.std.specs.Prelude.{◌≡◌, ◌+◌, ◌-◌, ◌<◌, ◌≤◌, ℕ, ℤ, List, length, take};
ghost use Rattle.std.specs.List.{filter};
ghost use Rattle.tables.specs.Literal.{var};
ghost use Rattle.rules.specs.Forced.{marked};
ghost use Rattle.rules.specs.Taking.{dependents};
ghost use Rattle.gates.specs.Sites.{gate_of, gates_of};
ghost use Rattle.taking.specs.Placing.{depends, stays, placed};

use gates::site::Site;
use rules::marks::is_marked;
use tables::literal::var;
use tables::sizes::MOST_VARIABLES;

/// As many gates as there are variables at most: no two have one output.
pub const MOST_GATES: usize = MOST_VARIABLES;

/// Whether the gate's output is marked.
fn depends(site: Site, marks: &[u8]) -> bool
    ensures { result ≡ depends marks.now site }
{
    is_marked(marks, var(site.output))
}

/// Leaves the gates that do not depend at the front of the row, and writes the others into a row of their own, both in their
/// order; how many stay.
fn split(row: &mut [Site], marks: &[u8], later: &mut [Site]) -> usize
    requires { length row.old ≤ length later.old }
    ensures within { result ≤ length row.old }
    ensures staying { take result row.new ≡ filter (stays marks.now) row.old }
    ensures later { take (length row.old - result) later.new ≡ filter (depends marks.now) row.old }
{
    let mut kept = 0;
    // By index: the row is written while it is read.
    for place in 0..row.len() {
        let site = row[place];
        if depends(site, marks) {
            later[place - kept] = site;
        } else {
            row[kept] = site;
            kept += 1;
        }
    }
    kept
}

/// Puts a gate in its place among the first `count` of the row, by the marks of what depends on its output.
pub fn place(sites: &mut [Site], count: usize, site: Site, marks: &[u8])
    requires few { count ≤ MOST_GATES }
    requires room { count < length sites.old }
    ensures parts { take (count + 1) sites.new ≡ placed marks.now (take count sites.old) site }
    ensures order { (row : List ℤ) (n : ℕ) → marks.now ≡ dependents n (gates_of row (take count sites.old)) (var site.output)
        → gates_of row (take (count + 1) sites.new) ≡ Rattle.rules.specs.Taking.place n (gates_of row (take count sites.old)) (gate_of row site) }
{
    let mut later = [site; MOST_GATES];
    let kept = split(&mut sites[..count], marks, &mut later);
    sites[kept] = site;
    sites[kept + 1..count + 1].copy_from_slice(&later[..count - kept]);
}
