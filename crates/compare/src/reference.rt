// Rounding by trial, written apart from the product's own: the two neighbours of an exact value are looked for among all sizes of
// encodings by cross products, and the nearer one is found by comparing twice the value with their sum.
use crate::wide::Wide;
use rounding::rules::AnyRule;
use std::cmp::Ordering;

pub const SIGN: u32 = 0x8000_0000;

// The size of an infinity, which is taken for 2^128 here, where the next number would lie.
pub const INFINITE: u32 = 0x7f80_0000;

const HIDDEN: u32 = 0x0080_0000;

// Flags are plain numbers here: the numbers are what is compared, and a type for them would be the product's once more.
pub const INVALID: u8 = 1;

pub const ZERO_DIVIDE: u8 = 2;

pub const OVERFLOW: u8 = 4;

pub const UNDERFLOW: u8 = 8;

pub const INEXACT: u8 = 16;

// An encoding with its flags.
#[derive(Clone, Copy, PartialEq, Eq)]
pub struct Outcome {
    pub bits: u32,
    pub flags: u8,
}

// An exact value: a fraction, in units of the smallest subnormal.
#[derive(Clone, Copy)]
pub struct Exact {
    pub negative: bool,
    pub above: Wide,
    pub below: Wide,
}

// Where an exact value lies: on which side of zero, the greatest size not above it, whether that is the value itself, and how the
// value compares with the middle between that size and the next. It is tiny below the smallest normal number.
#[derive(Clone, Copy)]
pub struct Place {
    negative: bool,
    low: u32,
    exact: bool,
    pub middle: Ordering,
    tiny: bool,
}

// A number times what a size is worth.
pub fn scaled(number: &Wide, size: u32) -> Wide {
    if size < HIDDEN {
        number.times(size)
    } else {
        number
            .times(HIDDEN | size % HIDDEN)
            .doubled(size / HIDDEN - 1)
    }
}

impl Exact {
    // Bit by bit from the top.
    fn low(&self) -> u32 {
        let mut low = 0;
        for bit in (0u32..31).rev() {
            let next = low | 1 << bit;
            if next <= INFINITE && scaled(&self.below, next) <= self.above {
                low = next;
            }
        }
        low
    }

    pub fn placed(&self) -> Place {
        let low = self.low();
        let least = scaled(&self.below, low);
        let sum = least.plus(&scaled(&self.below, low.wrapping_add(1)));
        Place {
            negative: self.negative,
            low,
            exact: least == self.above,
            middle: self.above.doubled(1).cmp(&sum),
            tiny: self.above < self.below.doubled(23),
        }
    }
}

impl Place {
    // Whether the rule goes away from zero wherever it can.
    fn is_outward(&self, rule: AnyRule) -> bool {
        match rule {
            AnyRule::Up => !self.negative,
            AnyRule::Down => self.negative,
            _ => false,
        }
    }

    // The chosen size, before an overflow is seen to.
    fn size(&self, rule: AnyRule) -> u32 {
        let next = self.low.wrapping_add(1);
        let even = if self.low % 2 == 0 { self.low } else { next };
        match (rule, self.middle) {
            (AnyRule::Even, Ordering::Equal) => even,
            (AnyRule::Away, Ordering::Equal) => next,
            (AnyRule::Even | AnyRule::Away, Ordering::Greater) => next,
            _ if self.is_outward(rule) && !self.exact => next,
            _ => self.low,
        }
    }

    fn overflow_size(&self, rule: AnyRule) -> u32 {
        match rule {
            AnyRule::Even | AnyRule::Away => INFINITE,
            _ if self.is_outward(rule) => INFINITE,
            _ => INFINITE - 1,
        }
    }

    pub fn chosen(&self, rule: AnyRule) -> Outcome {
        let size = self.size(rule);
        let sign = if self.negative { SIGN } else { 0 };
        if size >= INFINITE {
            return Outcome {
                bits: sign | self.overflow_size(rule),
                flags: OVERFLOW | INEXACT,
            };
        }
        let flags = match (self.exact, self.tiny) {
            (true, _) => 0,
            (false, true) => UNDERFLOW | INEXACT,
            (false, false) => INEXACT,
        };
        Outcome {
            bits: sign | size,
            flags,
        }
    }
}

// Where a tiny value ends that is rounded to 24 bits first, and to a subnormal afterwards.
pub fn rounded_twice(exact: &Exact) -> u32 {
    let raised = Exact {
        negative: false,
        above: exact.above.doubled(200),
        below: exact.below,
    };
    let one = Wide::from(1);
    let lowered = Exact {
        negative: false,
        above: scaled(&one, raised.placed().size(AnyRule::Even)),
        below: one.doubled(200),
    };
    lowered.placed().size(AnyRule::Even)
}
