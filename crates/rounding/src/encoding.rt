// Binary32 encodings: a sign bit, an exponent field of 8 bits and a fraction of 23 bits, read by integer arithmetic alone.
ghost use Rattle.std.specs.Prelude.{◌≡◌, ◌/◌, ◌%◌, ◌≤◌};
ghost use Rattle.rounding.specs.Format.{binary32, negative, size, joined, infinity, quiet, is_nan, is_infinite, is_finite, is_zero, significand, shift};

// The weights of the hidden bit and of the sign bit, and the size of an infinity.
pub const HIDDEN: u32 = 0x0080_0000;

pub const SIGN: u32 = 0x8000_0000;

pub const INFINITY: u32 = 0x7f80_0000;

#[derive(Clone, Copy)]
pub struct Encoding {
    bits: u32,
}

impl Encoding {
    // Constant functions and no From: by the names that std gives to just this for its own floats.
    pub const fn from_bits(bits: u32) -> Encoding
        ensures { result.bits ≡ bits }
    {
        Encoding { bits }
    }

    pub const fn to_bits(self) -> u32
        ensures { result ≡ self.bits }
    {
        self.bits
    }

    // The encoding of a sign and a size.
    pub(crate) fn with_sign(negative: bool, size: u32) -> Encoding
        requires { size ≤ 2139095040 }
        ensures { result.bits ≡ joined binary32 negative size }
    {
        Encoding {
            bits: if negative { SIGN + size } else { size },
        }
    }

    pub fn infinity(negative: bool) -> Encoding
        ensures { result.bits ≡ joined binary32 negative (infinity binary32) }
    {
        Encoding::with_sign(negative, INFINITY)
    }

    pub fn zero(negative: bool) -> Encoding
        ensures { result.bits ≡ joined binary32 negative 0 }
    {
        Encoding::with_sign(negative, 0)
    }

    // The one NaN that is ever answered.
    pub const fn quiet_nan() -> Encoding
        ensures { result.bits ≡ quiet binary32 }
    {
        Encoding { bits: 0x7fc0_0000 }
    }

    pub fn is_negative(self) -> bool
        ensures { result ≡ negative binary32 self.bits }
    {
        SIGN <= self.bits
    }

    // The encoding without its sign bit.
    pub fn size(self) -> u32
        ensures { result ≡ size binary32 self.bits }
    {
        self.bits % SIGN
    }

    // The exponent field.
    pub fn field(self) -> u32
        ensures { result ≡ size binary32 self.bits / 8388608 }
    {
        self.size() / HIDDEN
    }

    pub fn fraction(self) -> u32
        ensures { result ≡ size binary32 self.bits % 8388608 }
    {
        self.size() % HIDDEN
    }

    // The fraction, with the hidden bit where the exponent field is not 0.
    #[tactic(auto, unfolding(crate::specs::Format::significand))]
    pub fn significand(self) -> u32
        ensures { result ≡ significand 8388608 (size binary32 self.bits) }
    {
        if self.size() < HIDDEN {
            self.size()
        } else {
            HIDDEN + self.fraction()
        }
    }

    // By how many doublings a unit of the significand exceeds the smallest subnormal.
    #[tactic(auto, unfolding(crate::specs::Format::shift))]
    pub fn shift(self) -> u32
        ensures { result ≡ shift 8388608 (size binary32 self.bits) }
    {
        self.field().saturating_sub(1)
    }

    pub fn is_nan(self) -> bool
        ensures { result ≡ is_nan binary32 self.bits }
    {
        INFINITY < self.size()
    }

    pub fn is_infinite(self) -> bool
        ensures { result ≡ is_infinite binary32 self.bits }
    {
        self.size() == INFINITY
    }

    pub fn is_finite(self) -> bool
        ensures { result ≡ is_finite binary32 self.bits }
    {
        self.size() < INFINITY
    }

    pub fn is_zero(self) -> bool
        ensures { result ≡ is_zero binary32 self.bits }
    {
        self.size() == 0
    }
}
