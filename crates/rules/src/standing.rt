// What each variable stands for, looked up in its row.
ghost use Rattle.std.specs.Prelude.{◌≡◌, ◌*◌, ◌≤◌};
ghost use Rattle.rules.specs.Pairs;

/// The literal that a variable stands for: its own, where it is beyond the row.
#[tactic(auto, unfolding(crate::specs::Pairs::stands))]
pub fn stands_for(stands: &[u16], variable: usize) -> usize
    requires { 2 * variable ≤ usize.MAX }
    ensures { result ≡ Pairs.stands stands.now variable }
{
    match stands.get(variable) {
        Some(&literal) => usize::from(literal),
        None => 2 * variable,
    }
}
