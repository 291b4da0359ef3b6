// Dividends and divisors that lean to where quotients are hard to round.
ghost use Rattle.std.specs.Prelude.{◌<◌};

use crate::questions::Question;
use crate::random::{Random, joined};

// The quotient by 2^23, or by 2^24 from 2^47 on, to the nearest.
fn nearest(product: u64) -> u32 {
    let sum = if product < 0x8000_0000_0000 {
        product.wrapping_mul(2)
    } else {
        product
    };
    ((sum.wrapping_add(0x80_0000) >> 24) % 0x1_0000_0000) as u32
}

impl Random {
    // The same, one less or one more.
    fn nudged(&mut self, n: u32) -> u32 {
        n.wrapping_add(self.below(3)).wrapping_sub(1)
    }

    // 24 bits that are a tie, where so many are dropped.
    fn tie_at(&mut self, dropped: u32) -> u32
        requires { (0 < dropped) × (dropped < 24) }
    {
        ((self.significand() >> dropped) << dropped) | (1 << (dropped - 1))
    }

    // A quotient that is a tie between subnormals, or so near to one that 24 bits do not tell it from the tie.
    fn subnormal_tie(&mut self) -> Question {
        let dropped = 1 + self.below(23);
        let tie = self.tie_at(dropped);
        let divisor = if self.below(4) == 0 {
            0x80_0000
        } else {
            self.significand()
        };
        let product = (tie as u64).wrapping_mul(divisor as u64);
        let carried = if product < 0x8000_0000_0000 { 1 } else { 0 };
        let field = 1 + self.below(104);
        let dividend = joined(self.next(), field, nearest(product));
        Question::Quotient(
            dividend,
            joined(self.next(), field + 125 + dropped + carried, divisor),
        )
    }

    // A quotient next to a tie between normal numbers.
    fn normal_tie(&mut self) -> Question {
        let tie = (self.significand() as u64).wrapping_mul(2) | 1;
        let divisor = self.significand();
        let product = tie.wrapping_mul(divisor as u64) / 2;
        let dividend = self.nudged(nearest(product));
        Question::Quotient(
            joined(self.next(), 64 + self.below(128), dividend),
            joined(self.next(), 64 + self.below(128), divisor),
        )
    }

    // A quotient about 2^128, or about the smallest normal number.
    fn edge(&mut self) -> Question {
        let significand = self.significand();
        let field = 129 + self.below(126);
        let near = significand.wrapping_add(self.below(8)).wrapping_sub(4);
        let great = joined(self.next(), field, significand);
        let apart = 126 + self.below(4);
        let small = joined(self.next(), field - apart, near);
        if self.below(2) == 0 {
            Question::Quotient(great, small)
        } else {
            Question::Quotient(small, great)
        }
    }

    pub fn quotient(&mut self) -> Question {
        match self.below(6) {
            0 => self.subnormal_tie(),
            1 => self.normal_tie(),
            2 => self.edge(),
            3 => Question::Quotient(self.special(), self.operand()),
            4 => Question::Quotient(self.operand(), self.special()),
            _ => Question::Quotient(self.operand(), self.operand()),
        }
    }
}
