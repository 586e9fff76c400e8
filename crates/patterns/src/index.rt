// An index of a row's clauses by a key of their variables: chains through the row, from each key's first clause on.
ghost use Rattle.std.specs.Prelude.{◌≡◌, ◌+◌, ◌*◌, ◌%◌, ◌<◌, ◌≤◌, [], ◌∷◌, map, length};
ghost use Rattle.tables.specs.Literal.{literal};
ghost use Rattle.patterns.specs.Index.{Heads, Indexed, key};

use tables::literal::{literal, var};
use tables::sizes::MOST_ENTRIES;

/// How many keys there are.
pub const KEYS: usize = 1024;

/// A row with the index of its clauses. The row's length stands for no place.
#[derive(Clone, Copy)]
pub struct Index<'a> {
    /// The row.
    pub row: &'a [i32],
    /// For each key where its first clause starts.
    pub(crate) heads: &'a [u16],
    /// For each place where the next clause of the same key starts as that of the one which starts there.
    pub(crate) links: &'a [u16],
    pub ghost indexed: { Indexed row.now heads.now links.now },
}

/// The key of a clause that has one variable more before those of this key.
fn key_with(key: usize, variable: usize) -> usize
    requires { key < KEYS }
    ensures is { result ≡ (31 * key + variable) % KEYS }
    ensures within { result < KEYS }
{
    (31 * key + variable % KEYS) % KEYS
}

/// The clause's key.
#[tactic(auto, using(crate::proofs::Chains::key_start, crate::proofs::Chains::key_back), unfolding(crate::proofs::Chains::key_before))]
pub fn key(clause: &[i32]) -> usize
    ensures is { result ≡ key (map literal clause.now) }
    ensures within { result < KEYS }
{
    let mut key = 0;
    for &entry in clause.iter().rev() {
        key = key_with(key, var(literal(entry)));
    }
    key
}

/// The key of a clause of two literals.
#[tactic(auto, unfolding(crate::specs::Index::key))]
pub fn key_of_two(x: usize, y: usize) -> usize
    ensures is { result ≡ key (x ∷ y ∷ []) }
    ensures within { result < KEYS }
{
    key_with(key_with(0, var(y)), var(x))
}

/// The key at a place, from that behind it: a zero ends the clause that starts behind it.
fn read_back(row: &[i32], place: usize, key: usize, heads: &mut [u16]) -> usize
    requires inside { place < length row.now }
    requires short { length row.now ≤ MOST_ENTRIES }
    requires small { key < KEYS }
    requires heads { Heads row.now (place + 1) key heads.old }
    ensures heads { Heads row.now place result heads.new }
    ensures within { result < KEYS }
{
    if row[place] == 0 {
        heads[key] = (place + 1) as u16;
        0
    } else {
        key_with(key, var(literal(row[place])))
    }
}

/// Writes the row's index.
fn write(row: &[i32], heads: &mut [u16], links: &mut [u16])
    requires short { length row.now ≤ MOST_ENTRIES }
    requires keys { length heads.old ≡ KEYS }
    requires room { length row.now ≤ length links.old }
    ensures { Indexed row.now heads.new links.new }
{
    heads.fill(row.len() as u16);
    let mut key = 0;
    // By index: the place is what is written, and an iterator over the row would do only for reading.
    for place in (0..row.len()).rev() {
        key = read_back(row, place, key, heads);
        links[place] = heads[key];
    }
    heads[key] = 0;
}

impl<'a> Index<'a> {
    /// The row's index, written into the lent rows of places.
    pub fn build(row: &'a [i32], heads: &'a mut [u16], links: &'a mut [u16]) -> Index<'a>
        requires short { length row.now ≤ MOST_ENTRIES }
        requires keys { length heads.old ≡ KEYS }
        requires room { length row.now ≤ length links.old }
        ensures { result.row.now ≡ row.now }
    {
        write(row, heads, links);
        Index { row, heads, links }
    }
}
