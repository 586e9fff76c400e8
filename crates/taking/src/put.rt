// Where a gate is put among the gates taken, the usual case first: nothing depends on it yet, and it goes behind all others.
ghost use Rattle.std.specs.Prelude.{◌≡◌, ◌+◌, ◌<◌, ◌≤◌, ℕ, ℤ, false, not, List, length, take};
ghost use Rattle.std.specs.Bool.{OnTrue};
ghost use Rattle.std.specs.List.{list_any};
ghost use Rattle.tables.specs.Literal.{var};
ghost use Rattle.rules.specs.Forced.{marked};
ghost use Rattle.rules.specs.Taking.{dependents};
ghost use Rattle.gates.specs.Sites.{gate_of, gates_of};
ghost use Rattle.taking.specs.Placing.{placed};

use crate::place::place;
use gates::site::Site;
use rules::marks::is_marked;
use tables::literal::var;

/// Whether the output of one of the gates is marked.
fn has_marked_output(sites: &[Site], marks: &[u8]) -> bool
    ensures { result ≡ list_any (λ s. marked marks.now (var s.output)) sites.now }
{
    sites.iter().any(|site| is_marked(marks, var(site.output)))
}

/// Whether none of the gates depends, by the marks; where that is known they are not looked at.
fn none_depends(sites: &[Site], marks: &[u8], known: bool) -> bool
    requires { OnTrue known (list_any (λ s. marked marks.now (var s.output)) sites.now ≡ false) }
    ensures { result ≡ not (list_any (λ s. marked marks.now (var s.output)) sites.now) }
{
    known || !has_marked_output(sites, marks)
}

/// Puts a gate among the first `count` of the row, by the marks of what depends on its output; where it is known that none of
/// them does, they are not looked at.
pub fn put(sites: &mut [Site], count: usize, site: Site, marks: &[u8], last: bool)
    requires few { count ≤ 1024 }
    requires room { count < length sites.old }
    requires last { OnTrue last (list_any (λ s. marked marks.now (var s.output)) (take count sites.old) ≡ false) }
    ensures parts { take (count + 1) sites.new ≡ placed marks.now (take count sites.old) site }
    ensures order { (row : List ℤ) (n : ℕ) → marks.now ≡ dependents n (gates_of row (take count sites.old)) (var site.output)
        → gates_of row (take (count + 1) sites.new) ≡ Rattle.rules.specs.Taking.place n (gates_of row (take count sites.old)) (gate_of row site) }
{
    if none_depends(&sites[..count], marks, last) {
        sites[count] = site;
    } else {
        place(sites, count, site, marks);
    }
}
