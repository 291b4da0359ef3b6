// The leading digits of a number.
ghost use Rattle.std.specs.Prelude.{◌≡◌, ◌+◌, ◌*◌, ◌^◌, ◌<◌, ◌≤◌, take, nat_lt};
ghost use Rattle.places.specs.Digits.{bits_value};

use crate::bits::Bits;

// The number made of the digits from `left` up.
#[derive(Clone, Copy)]
pub struct Top {
    pub number: u64,
    pub left: usize,
}

// As many digits from the top as it takes to reach the limit, or all of them.
pub fn leading(bits: &Bits, limit: u64) -> Top
    requires { (0 < limit) × (limit ≤ 2 ^ 48) }
    ensures parts { result.number * 2 ^ result.left + bits_value (take result.left bits.now.digits) ≡ bits_value bits.now.digits }
    ensures within { result.left ≤ 576 }
    ensures below { result.number < 2 * limit }
    ensures all { result.number < limit → result.left ≡ 0 }
{
    let mut number = 0;
    for (place, digit) in bits.digits.iter().enumerate().rev() {
        if number >= limit {
            let left = place + 1;
            return Top { number, left };
        }
        number = 2 * number + u64::from(*digit);
    }
    Top { number, left: 0 }
}

// Whether a digit below the given place is set.
pub fn any_below(bits: &Bits, left: usize) -> bool
    requires { left ≤ 576 }
    ensures { result ≡ nat_lt 0 (bits_value (take left bits.now.digits)) }
{
    bits.digits[..left].contains(&true)
}

#[derive(Clone, Copy)]
pub struct Scaled {
    pub number: u64,
    pub times: u16,
}

// Doubles a number until it reaches the limit.
pub fn doubled(number: u64, limit: u64) -> Scaled
    requires { (0 < number) × (limit ≤ 2 ^ 48) }
    ensures is { result.number ≡ number * 2 ^ result.times }
    ensures few { result.times ≤ 48 }
    ensures reached { limit ≤ result.number }
    ensures below { number < 2 * limit → result.number < 2 * limit }
    ensures kept { limit ≤ number → result.times ≡ 0 }
{
    let mut reached = number;
    let mut times = 0;
    // It counts doublings and no places, so that no iterator says it plainer.
    while reached < limit {
        reached *= 2;
        times += 1;
    }
    Scaled {
        number: reached,
        times,
    }
}
