// The pin book.

use tables::sizes::MOST_PINS;

/// The pins in force: the first `held` of 64 places. Whoever lends a book may lend one whose length is no length, and the
/// calls refuse it.
// One record of 64 places and a length, and no vector or slice: a length above 64 is lent and refused with 6, and the place
// that a take-back frees is 0 (`book_long`, `take_back` and the edit `take_back_keeps` speak of both). No heap.
#[derive(Clone, Copy, Debug, PartialEq, Eq)]
pub struct Book {
    pub pins: [i32; MOST_PINS],
    pub held: usize,
}

impl Book {
    ghost use Rattle.std.specs.Prelude.{◌≡◌};
    ghost use Rattle.rules.specs.Pins.{empty_book, in_force};

    /// The pins in force.
    #[tactic(auto, unfolding(crate::specs::Pins::in_force))]
    pub fn in_force(&self) -> &[i32]
        ensures { result.now ≡ in_force self.now }
    {
        self.pins.split_at(self.held.min(self.pins.len())).0
    }

    /// The book that holds no pin.
    #[tactic(auto, unfolding(crate::specs::Pins::empty_book))]
    pub fn new() -> Self
        ensures { result ≡ empty_book }
    {
        Book {
            pins: [0; MOST_PINS],
            held: 0,
        }
    }
}

impl Default for Book {
    ghost use Rattle.std.specs.Prelude.{◌≡◌};
    ghost use Rattle.rules.specs.Pins.{empty_book};

    ghost is_default = { λ book. book ≡ empty_book };

    fn default() -> Self {
        Book::new()
    }
}
