// Rounding a truncated value to binary32, once.
ghost use Rattle.std.specs.Prelude.{◌≡◌, ℕ, ◌+◌, ◌-◌, ◌*◌, ◌/◌, ◌%◌, ◌^◌, ◌<◌, ◌≤◌, Bool, ◌||◌, if◌then◌else◌, ◌==◌};
ghost use Rattle.rounding.specs.Format.{binary32, joined, infinity};
ghost use Rattle.rounding.specs.Rounding.{place, whole, rest, chosen, settled, raised};
ghost use Rattle.rounding.specs.Truncation.{Near, Cut, rest_of};

use crate::encoding::{Encoding, HIDDEN, INFINITY};
use crate::flags::Flags;
use crate::rest::Rest;
use crate::rule::Rule;
use crate::truncated::Truncated;

// An encoding, with the flags that it raised.
#[derive(Clone, Copy)]
pub struct Answer {
    pub encoding: Encoding,
    pub flags: Flags,
}

// A value split at its last place: the place, the whole units of it, and the kind of rest.
#[derive(Clone, Copy)]
struct Split {
    at: u32,
    units: u32,
    left: Rest,
    ghost within: { (at ≤ 65319) × (units < 16777216) },
}

// A quotient before its last bits: the bits kept, the first bit dropped, and whether any other dropped bit is set.
#[derive(Clone, Copy)]
struct Tail {
    kept: u64,
    half: bool,
    more: bool,
}

// The number of bits.
fn length(n: u64) -> u32
    requires { 16777216 ≤ n }
    ensures within { (25 ≤ result) × (result ≤ 64) }
    ensures bits { (2 ^ (result - 1) ≤ n) × (n < 2 ^ result) }
{
    64 - n.leading_zeros()
}

impl Tail {
    fn of(quotient: u64, dropped: u32) -> Tail
        requires { (16777216 ≤ quotient) × (1 ≤ dropped) }
        ensures { Cut quotient (dropped - 1) result.kept result.half result.more }
    {
        if dropped > 64 {
            return Tail {
                kept: 0,
                half: false,
                more: true,
            };
        }
        let upper = quotient >> (dropped - 1);
        Tail {
            kept: upper / 2,
            half: upper % 2 == 1,
            more: upper << (dropped - 1) != quotient,
        }
    }

    // The kind of rest, with bits below the quotient cut off or not.
    fn rest(self, cut: bool) -> Rest
        ensures { result ≡ rest_of self.half (self.more || cut) }
    {
        match (self.half, self.more, cut) {
            (false, false, false) => Rest::Nothing,
            (false, _, _) => Rest::UnderHalf,
            (true, false, false) => Rest::Half,
            (true, _, _) => Rest::OverHalf,
        }
    }
}

impl Split {
    // The place is the first at which 24 bits reach the value; what lies below it is the rest. By `of` and not by From, since it keeps only a part
    // of the value.
    fn of(value: Truncated) -> Split
        ensures { (a b : ℕ) → 0 < b → Near value.quotient value.scale value.cut a b → (place 8388608 a b ≡ result.at) × (whole 8388608 a b ≡ result.units) × (rest 8388608 a b ≡ result.left) }
    {
        let quotient = value.quotient();
        let scale = value.scale() as u32;
        let at = (length(quotient) + scale).saturating_sub(280);
        let tail = Tail::of(quotient, at + 256 - scale);
        Split {
            at,
            units: tail.kept as u32,
            left: tail.rest(value.cut()),
        }
    }

    // The greatest size not above the value.
    fn low(self) -> u64
        ensures { result ≡ self.at * 8388608 + self.units }
    {
        u64::from(self.at) * u64::from(HIDDEN) + u64::from(self.units)
    }

    // That size, or the next one where the rule says so.
    fn chosen<R: Rule>(self, rule: &R, negative: bool) -> u64
        ensures { result ≡ (if (R.meaning rule.now).grow negative (self.units % 2 == 1) self.left then 1 else 0) + (self.at * 8388608 + self.units) }
    {
        let grows = rule.grows(negative, self.units % 2 == 1, self.left);
        self.low() + u64::from(grows)
    }
}

// Where an overflow goes.
fn overflow_size<R: Rule>(rule: &R, negative: bool) -> u32
    ensures { result ≡ (if (R.meaning rule.now).infinite negative then 2139095040 else 2139095039) }
{
    if rule.overflows_to_infinity(negative) {
        INFINITY
    } else {
        INFINITY - 1
    }
}

// The defined encoding and flags of every value that the truncated one stands for.
pub fn round<R: Rule>(rule: &R, negative: bool, value: Truncated) -> Answer
    ensures encoding { (a b : ℕ) → 0 < b → Near value.quotient value.scale value.cut a b → result.encoding.bits ≡ joined binary32 negative (settled (R.meaning rule.now) negative (infinity binary32) (chosen (R.meaning rule.now) negative 8388608 a b)) }
    ensures flags { (a b : ℕ) → 0 < b → Near value.quotient value.scale value.cut a b → result.flags.number ≡ raised (R.meaning rule.now) negative 8388608 (infinity binary32) a b }
{
    let split = Split::of(value);
    let size = split.chosen(rule, negative);
    if size < u64::from(INFINITY) {
        Answer {
            encoding: Encoding::with_sign(negative, size as u32),
            flags: Flags::of_rest(split.left, split.low() < u64::from(HIDDEN)),
        }
    } else {
        Answer {
            encoding: Encoding::with_sign(negative, overflow_size(rule, negative)),
            flags: Flags::overflow(),
        }
    }
}
