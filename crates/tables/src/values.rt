// The values of variables and literals under an assignment: a byte for each variable, 1 for true, the first for variable 1.
ghost use Rattle.std.specs.Prelude.{◌≡◌};
ghost use Rattle.tables.specs.Literal.{holds, valued};

use crate::literal::{is_negative, var};

/// Whether a variable is true. None beyond the row is.
pub fn is_set(values: &[u8], variable: usize) -> bool
    ensures { result ≡ valued values.now variable }
{
    variable > 0 && variable <= values.len() && values[variable - 1] == 1
}

/// Whether a literal is true.
pub fn is_true(values: &[u8], literal: usize) -> bool
    ensures { result ≡ holds (valued values.now) literal }
{
    is_set(values, var(literal)) != is_negative(literal)
}
