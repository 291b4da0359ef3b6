// What an average asks an engine for.
ghost use Rattle.std.specs.Prelude.{◌<◌, ◌≤◌};
ghost use Rattle.places.specs.Digits.{bits_value};
ghost use Rattle.window.specs.Due.{Due};

use engines::Question;
use places::bits::Bits;
use places::pair::Pair;

// A question, with what has to be known to round its quotient: the sign, the quotient's scale, biased by 256, and whether digits of the sum
// were cut off.
#[derive(Clone, Copy)]
pub struct Ask {
    pub negative: bool,
    pub question: Question,
    pub scale: u16,
    pub more: bool,
}

impl Ask {
    // What a sum over a count asks, where the sum is in units of 2^-unit. A sum of zero asks nothing.
    pub(crate) fn of(negative: bool, sum: &Bits, count: usize, unit: u16) -> Option<Ask>
        requires { (0 < count) × ((count ≤ 288) × (unit ≤ 341)) }
        ensures { Due negative (bits_value sum.now.digits) count unit result }
    {
        let pair = Pair::of(sum, count as u16)?;
        Some(Ask {
            negative,
            question: Question::new(pair.divisor, pair.dividend).unwrap(),
            scale: pair.exponent + (341 - unit),
            more: pair.more,
        })
    }
}
