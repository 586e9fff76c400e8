// The pieces of written text, laid over a buffer one behind another. What passes the buffer's end is lost, but counted: so a
// text laid over an empty buffer tells the room that it needs.
ghost use Rattle.std.specs.Prelude.{◌≡◌};
ghost use Rattle.texts.specs.Decimal.{decimal, signed};
ghost use Rattle.texts.specs.Laying.{laid, lay};
ghost use Rattle.texts.specs.Pieces.{piece};

use crate::decimal::decimal;
use tables::literal::{is_negative, literal, var};

/// A buffer, and the place behind what was laid over it.
#[derive(Drop)]
pub struct Laying<'a> {
    pub out: &'a mut [u8],
    pub at: usize,
}

impl Laying<'_> {
    /// Lays bytes behind the others.
    #[tactic(auto, using(crate::proofs::LaySteps::byte_laid, crate::proofs::LaySteps::byte_lost, crate::proofs::LaySteps::all_laid))]
    pub fn put(&mut self, bytes: &[u8])
        ensures { laid self.new ≡ lay (laid self.old) bytes.now }
    {
        for &byte in bytes {
            if self.at < self.out.len() {
                self.out[self.at] = byte;
            }
            self.at = self.at.saturating_add(1);
        }
    }

    /// Lays a number.
    pub fn put_number(&mut self, number: usize)
        ensures { laid self.new ≡ lay (laid self.old) (decimal number) }
    {
        let (digits, first) = decimal(number);
        self.put(digits.split_at(first).1);
    }

    /// Lays a literal with its sign.
    #[tactic(auto, using(crate::proofs::LaySteps::laid_behind), unfolding(crate::specs::Decimal::signed))]
    pub fn put_signed(&mut self, literal: usize)
        ensures { laid self.new ≡ lay (laid self.old) (signed literal) }
    {
        if is_negative(literal) {
            self.put(b"-");
        }
        self.put_number(var(literal));
    }

    /// Lays an entry of a table, and what parts it from the next.
    #[tactic(auto, using(crate::proofs::LaySteps::laid_behind), unfolding(crate::specs::Writing::parting))]
    pub fn put_piece(&mut self, entry: i32)
        ensures { laid self.new ≡ lay (laid self.old) (piece entry) }
    {
        let literal = literal(entry);
        self.put_signed(literal);
        self.put(if literal == 0 { b"\n" } else { b" " });
    }
}
