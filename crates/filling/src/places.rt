// Which gate has which variable as its output, found in one walk over the gates.
ghost use Rattle.std.specs.Prelude.{◌≡◌, ◌<◌, ◌^◌, ℕ, length, get_or};
ghost use Rattle.std.specs.List.{All};
ghost use Rattle.tables.specs.Literal.{var};
ghost use Rattle.filling.specs.Places.{IsPlaced, IsGateFor};

use gates::site::Site;
use tables::literal::var;

/// Puts each gate's place, counted from 1, at the variable of its output.
pub fn place_all(sites: &[Site], places: &mut [u16])
    requires few { length sites.now < 2 ^ 16 }
    requires room { All (λ site. var site.output < length places.old) sites.now }
    requires empty { (v : ℕ) → get_or places.old v 0 ≡ 0 }
    ensures { IsPlaced sites.now places.new }
{
    for (place, site) in sites.iter().enumerate() {
        places[var(site.output)] = place as u16 + 1;
    }
}

/// A variable's place in the row, or 0.
pub fn place_of(places: &[u16], variable: usize) -> usize
    ensures { result ≡ get_or places.now variable 0 }
{
    match places.get(variable) {
        Some(&place) => usize::from(place),
        None => 0,
    }
}

/// The gate whose output the variable is, if there is one.
#[tactic(auto, using(crate::proofs::AskPlaces::place_within, crate::proofs::AskPlaces::no_gate, crate::proofs::AskPlaces::gate_there))]
pub fn gate_for(sites: &[Site], places: &[u16], variable: usize) -> Option<Site>
    requires { IsPlaced sites.now places.now }
    ensures { IsGateFor sites.now variable result }
{
    let place = place_of(places, variable);
    if place == 0 {
        None
    } else {
        Some(sites[place - 1])
    }
}
