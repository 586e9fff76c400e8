// A set of literals, or of variables, as a row of marks: a byte for each number, 1 where it is in the set.
ghost use Rattle.std.specs.Prelude.{◌≡◌, set};
ghost use Rattle.rules.specs.Forced.{marked};

/// Whether a number is in the set. None beyond the row is.
pub fn is_marked(marks: &[u8], number: usize) -> bool
    ensures { result ≡ marked marks.now number }
{
    number < marks.len() && marks[number] == 1
}

/// Puts a number into the set, if the row has a place for it.
pub fn mark(marks: &mut [u8], number: usize)
    ensures { marks.new ≡ set marks.old number 1 }
{
    if number < marks.len() {
        marks[number] = 1;
    }
}
