// Windows of replies that lean to where means are hard to round.
use crate::random::Random;
use crate::reference::{INFINITE, SIGN};

// What the replies of a window have in common: all but some bits.
#[derive(Clone, Copy)]
pub struct Mould {
    base: u32,
    free: u32,
}

impl Random {
    pub fn mould(&mut self) -> Mould {
        let base = self.operand();
        match self.below(9) {
            // Anything.
            0 => Mould {
                base,
                free: 0xffff_ffff,
            },
            // Of one exponent.
            1 => Mould {
                base,
                free: 0x807f_ffff,
            },
            // A number and the next one: the mean of two is a tie.
            2 => Mould {
                base,
                free: 0x0000_0001,
            },
            // A number and its opposite, or nearly: little is left.
            3 => Mould {
                base,
                free: 0x8000_0001,
            },
            // Powers of two so far apart that digits of the sum are cut off.
            4 => Mould {
                base: base & 0xff80_0000,
                free: 0xc000_0000,
            },
            // Powers of two whose squares add up to 25 bits: a tie.
            5 => Mould {
                base: 0x3000_0000,
                free: 0x0600_0000,
            },
            // Subnormals.
            6 => Mould {
                base: 0,
                free: 0x807f_ffff,
            },
            // Their squares are about the subnormals.
            7 => Mould {
                base: 0x1c00_0000,
                free: 0x83ff_ffff,
            },
            // Their squares are about 2^128.
            _ => Mould {
                base: 0x5f00_0000,
                free: 0x80ff_ffff,
            },
        }
    }

    // A finite reply.
    pub fn reply(&mut self, mould: Mould) -> u32 {
        let bits = mould.base ^ (self.next() & mould.free);
        if bits % SIGN < INFINITE {
            bits
        } else {
            bits & 0xbfff_ffff
        }
    }

    // From 1 to 288.
    pub fn length(&mut self) -> u32 {
        match self.below(4) {
            0 => 1 + self.below(4),
            1 => 1 << self.below(9),
            2 => 288 - self.below(3),
            _ => 1 + self.below(288),
        }
    }
}
