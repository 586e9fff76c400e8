// Literals: the few functions that own all signed arithmetic. An entry v of a table is the literal of number 2v, and -v that
// of 2v + 1, so that the number tells variable and sign, and the order of the numbers is the order of the variables.
ghost use Rattle.std.specs.Prelude.{◌≡◌, ◌<◌, ◌^◌, ◌↔◌, IsTrue};
ghost use Rattle.tables.specs.Literal.{literal, entry, var, neg, opp};

/// The literal of an entry, of the least one too; 0 is the number of the entry 0.
pub fn literal(entry: i32) -> usize
    ensures { result ≡ literal entry }
{
    let double = 2 * entry.unsigned_abs() as usize;
    if entry < 0 { double + 1 } else { double }
}

/// The entry of a literal.
pub fn entry(literal: usize) -> i32
    requires { literal < 2 ^ 31 }
    ensures { result ≡ entry literal }
{
    let variable = var(literal) as i32;
    if is_negative(literal) {
        -variable
    } else {
        variable
    }
}

/// The variable of a literal.
pub fn var(literal: usize) -> usize
    ensures { result ≡ var literal }
{
    literal / 2
}

/// Whether a literal is negative.
pub fn is_negative(literal: usize) -> bool
    ensures { result ≡ neg literal }
{
    literal % 2 == 1
}

/// The opposite of a literal: the same variable with the other sign.
pub fn opposite(literal: usize) -> usize
    ensures { result ≡ opp literal }
{
    if is_negative(literal) {
        literal - 1
    } else {
        literal + 1
    }
}
