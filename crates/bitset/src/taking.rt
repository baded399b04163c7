// The bits of a word, one after another from the lowest on.
ghost use Rattle.std.specs.Iterator.{at_most};
ghost use Rattle.bitset.specs.Words.{BitTaken};

use crate::words::{lowest_bit, without_bit};

// Those that are left.
#[derive(Clone, Copy)]
pub struct Bits(pub u64);

impl Iterator for Bits {
    type Item = usize;

    ghost next_gives = { λ s bit t. BitTaken s.0 bit t.0 };

    ghost remaining = { λ s. at_most s.0 };

    fn next(&mut self) -> Option<usize> {
        if self.0 == 0 {
            return None;
        }
        let bit = lowest_bit(self.0);
        self.0 = without_bit(self.0, bit);
        Some(bit)
    }
}
