// The pair of whole numbers that the quotient of a sum by a count asks an engine for.
ghost use Rattle.std.specs.Prelude.{◌≡◌, ◌<◌, ◌≤◌, ◌⊎◌, MatchOption};
ghost use Rattle.places.specs.Digits.{bits_value};
ghost use Rattle.places.specs.Asking.{Asks, Scales};

use crate::bits::Bits;
use crate::leading::{any_below, doubled, leading};

// The quotient is dividend / divisor * 2^(exponent - 64), and somewhat more where digits were cut off.
#[derive(Clone, Copy)]
pub struct Pair {
    pub divisor: u32,
    pub dividend: u64,
    pub exponent: u16,
    pub more: bool,
}

impl Pair {
    // Nothing is asked where the sum or the count is 0.
    pub fn of(sum: &Bits, count: u16) -> Option<Pair>
        ensures { MatchOption result ((bits_value sum.now.digits ≡ 0) ⊎ (count ≡ 0)) (λ p. (0 < bits_value sum.now.digits) × (0 < count) × Asks (bits_value sum.now.digits) count p.divisor p.dividend × Scales 64 (bits_value sum.now.digits) count p.divisor p.dividend p.exponent p.more × (p.exponent ≤ 688)) }
    {
        if count == 0 {
            return None;
        }
        let scaled = doubled(count as u64, 0x0080_0000);
        let limit = 0x0100_0000 * scaled.number;
        let top = leading(sum, limit);
        if top.number == 0 {
            return None;
        }
        let whole = doubled(top.number, limit);
        Some(Pair {
            divisor: scaled.number as u32,
            dividend: whole.number,
            exponent: 64 + top.left as u16 + scaled.times - whole.times,
            more: any_below(sum, top.left),
        })
    }
}
