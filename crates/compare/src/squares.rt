// Operands that lean to where squares are hard to round.
use crate::questions::Question;
use crate::random::{Random, joined};

// A number whose square ends in the same 23 bits as the given one, which is 1 more than a multiple of 8. Bit by bit from below.
fn root(end: u32) -> u32 {
    let mut root: u32 = 1;
    for bit in 3u32..23 {
        if ((root.wrapping_mul(root) ^ end) >> bit) % 2 == 1 {
            root |= 1 << (bit - 1);
        }
    }
    root
}

impl Random {
    // Its square is a tie: among the subnormals, or if it has 47 bits.
    fn tie(&mut self) -> u32 {
        let zeros = 11 + self.below(13);
        let odd = (self.significand() >> zeros) | 1;
        let field = if zeros == 11 {
            64 + self.below(127)
        } else {
            75 - zeros
        };
        joined(self.next(), field, odd << zeros)
    }

    // Its square is by little above or below a tie, down to one unit of the exact product.
    fn near_tie(&mut self) -> u32 {
        let root = root(0x3f_ffc1 + 8 * self.below(16));
        joined(self.next(), 64 + self.below(127), root)
    }

    pub fn square(&mut self) -> Question {
        Question::Square(match self.below(6) {
            0 => self.tie(),
            1 => self.near_tie(),
            // About the subnormals.
            2 => joined(self.next(), 50 + self.below(16), self.next()),
            // About 2^128.
            3 => joined(
                self.next(),
                190,
                0u32.wrapping_sub(self.next() >> self.below(32)),
            ),
            4 => self.special(),
            _ => self.operand(),
        })
    }
}
