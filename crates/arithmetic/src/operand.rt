// Operands scaled to the 24 bits that engines are asked with.
ghost use Rattle.std.specs.Prelude.{◌≡◌, ◌*◌, ◌^◌, ◌<◌, ◌≤◌, true, false};
ghost use Rattle.rounding.specs.Format.{binary32, size, value, significand, is_finite, is_zero};
ghost use Rattle.arithmetic.specs.Defined.{aligned};

use rounding::encoding::Encoding;

// A value of bits * 2^(power - 23) units of the smallest subnormal, with the leading bit in the hidden bit's place.
#[derive(Clone, Copy)]
pub struct Scaled {
    pub bits: u32,
    pub power: u32,
    ghost normal: { (8388608 ≤ bits) × (bits < 16777216) },
    ghost finite: { power ≤ 276 },
}

// A number other than zero with its leading bit brought to the hidden bit's place.
pub fn scale_up(x: Encoding) -> Scaled
    requires { (is_finite binary32 x.bits ≡ true) × (is_zero binary32 x.bits ≡ false) }
    ensures bits { result.bits ≡ aligned (significand 8388608 (size binary32 x.bits)) }
    ensures value { value 8388608 (size binary32 x.bits) * 8388608 ≡ result.bits * 2 ^ result.power }
{
    let significand = x.significand();
    let lift = significand.leading_zeros() - 8;
    Scaled {
        bits: significand << lift,
        power: x.shift() + 23 - lift,
    }
}
