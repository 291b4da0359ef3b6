// A fixed generator, so that each run is the same, and operands that lean to the edges of binary32.
ghost use Rattle.std.specs.Prelude.{◌<◌};

use crate::reference::SIGN;

#[derive(Drop)]
pub struct Random {
    state: u64,
}

// An encoding from a word's sign bit, an exponent field and a significand, with its hidden bit or without.
pub fn joined(sign: u32, field: u32, significand: u32) -> u32 {
    (sign & SIGN) | ((field % 256) << 23) | significand % 0x80_0000
}

impl Random {
    pub fn new() -> Random {
        Random {
            state: 0x9e37_79b9_7f4a_7c15,
        }
    }

    // Xorshift, of which the upper half serves.
    pub fn next(&mut self) -> u32 {
        self.state ^= self.state << 13;
        self.state ^= self.state >> 7;
        self.state ^= self.state << 17;
        ((self.state >> 32) % 0x1_0000_0000) as u32
    }

    pub fn below(&mut self, end: u32) -> u32
        requires { 0 < end }
        ensures { result < end }
    {
        self.next() % end
    }

    // 24 bits, the first one set.
    pub fn significand(&mut self) -> u32 {
        0x80_0000 | self.below(0x80_0000)
    }

    // A zero, an infinity, a NaN, one, or the first or last of the subnormal and the normal numbers.
    pub fn special(&mut self) -> u32 {
        let size = match self.below(8) {
            0 => 0,
            1 => 0x7f80_0000,
            2 => 0x7fc0_0000,
            3 => 0x0000_0001,
            4 => 0x007f_ffff,
            5 => 0x0080_0000,
            6 => 0x7f7f_ffff,
            _ => 0x3f80_0000,
        };
        size | (self.next() & SIGN)
    }

    // A special one of which only some of the lowest bits are changed, or all.
    pub fn operand(&mut self) -> u32 {
        self.special() ^ (self.next() >> self.below(32))
    }
}
