// The three engines side by side, and what they are found to do.
ghost use Rattle.std.specs.Prelude.{◌≡◌};
ghost use Rattle.arithmetic.specs.Defined.{quotient};
ghost use Rattle.rounding.specs.Format.{binary32};
ghost use Rattle.rounding.specs.Rules.{even_rule};

use arithmetic::quotient::quotient;
use arithmetic::standing::StandingFlags;
use cubic::Cubic;
use engines::digits::Digits;
use engines::{Engine, Question, whole_quotient};
use radix4::Radix4;
use rounding::encoding::Encoding;
use rounding::rules::Even;

// How many pairs there were, at how many an engine's estimate was not that of `digits`, by how much at most, and at how many
// a whole quotient was not that of the machine, or a rounded one not that over `digits`.
#[derive(Clone, Copy, Default)]
pub struct Tally {
    pub pairs: u32,
    pub radix4_estimates: u32,
    pub cubic_estimates: u32,
    pub widest: u32,
    pub quotients: u32,
    pub rounded: u32,
}

// The three engines, each by its own type and not in an array of engines picked by name, so that no other can stand in its place.
#[derive(Drop)]
pub struct Three {
    digits: Digits,
    radix4: Radix4,
    cubic: Cubic,
}

// One more, where `a` and `b` differ.
fn counted(count: u32, a: u32, b: u32) -> u32
    ensures { a ≡ b → result ≡ count }
{
    if a == b {
        count
    } else {
        count.saturating_add(1)
    }
}

fn further(widest: u32, a: u32, b: u32) -> u32 {
    widest.max(a.abs_diff(b))
}

impl Three {
    pub fn new() -> Three {
        Three {
            digits: Digits::new(),
            radix4: Radix4::new(),
            cubic: Cubic::new(),
        }
    }

    // Puts one question to all of them: for the estimate, for the whole quotient, and for a quotient of encodings made of it.
    pub fn compared(&mut self, tally: Tally, question: Question) -> Tally
        ensures { (result.quotients ≡ tally.quotients) × (result.rounded ≡ tally.rounded) }
    {
        let digits = self
            .digits
            .estimate(question.divisor(), question.dividend());
        let radix4 = self
            .radix4
            .estimate(question.divisor(), question.dividend());
        let cubic = self.cubic.estimate(question.divisor(), question.dividend());
        Tally {
            pairs: tally.pairs.saturating_add(1),
            radix4_estimates: counted(tally.radix4_estimates, digits, radix4),
            cubic_estimates: counted(tally.cubic_estimates, digits, cubic),
            widest: further(further(tally.widest, digits, radix4), digits, cubic),
            quotients: self.quotients(tally.quotients, question),
            rounded: self.rounded(tally.rounded, question),
        }
    }

    // One more for each engine whose whole quotient is not the machine's: none, as is proved.
    fn quotients(&mut self, count: u32, question: Question) -> u32
        ensures { result ≡ count }
    {
        let machine = (question.dividend() / question.divisor() as u64) as u32;
        let digits = whole_quotient(&mut self.digits, question.divisor(), question.dividend());
        let radix4 = whole_quotient(&mut self.radix4, question.divisor(), question.dividend());
        let cubic = whole_quotient(&mut self.cubic, question.divisor(), question.dividend());
        counted(
            counted(counted(count, machine, digits), machine, radix4),
            machine,
            cubic,
        )
    }

    // One more for each engine over which a quotient is rounded otherwise than over `digits`: none, as is proved.
    fn rounded(&mut self, count: u32, question: Question) -> u32
        ensures { result ≡ count }
    {
        let dividend = Encoding::from_bits((question.dividend() % 4294967296) as u32);
        let divisor = Encoding::from_bits(question.divisor().wrapping_mul(2654435761));
        let digits = rounded_over(&mut self.digits, dividend, divisor);
        let radix4 = rounded_over(&mut self.radix4, dividend, divisor);
        let cubic = rounded_over(&mut self.cubic, dividend, divisor);
        counted(counted(count, digits, radix4), digits, cubic)
    }
}

// The encoding of the quotient over an engine, ties to even.
fn rounded_over<E: Engine>(engine: &mut E, dividend: Encoding, divisor: Encoding) -> u32
    ensures { result ≡ (quotient binary32 even_rule dividend.bits divisor.bits).bits }
{
    let mut standing = StandingFlags::new();
    quotient(engine, &Even, &mut standing, dividend, divisor)
        .encoding
        .to_bits()
}
