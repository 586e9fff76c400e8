// The sizes.

pub const MOST_VARIABLES: usize = 1_024;

pub const MOST_CLAUSES: usize = 4_096;
/// With the zeros.
pub const MOST_ENTRIES: usize = 16_384;
/// In a clause.
pub const MOST_LITERALS: usize = 64;
/// Of a text.
pub const MOST_BYTES: usize = 65_536;
/// In force.
pub const MOST_PINS: usize = 64;
/// Entries of a work buffer.
pub const WORK_ROOM: usize = 16_384;
/// Of the numbers of variables, with 0, which is none's.
pub const VARIABLE_NUMBERS: usize = MOST_VARIABLES + 1;
/// Of the numbers of literals, with 0 and 1, which are the values.
pub const LITERAL_NUMBERS: usize = 2 * VARIABLE_NUMBERS;
