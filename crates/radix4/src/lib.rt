// `radix4`: two quotient bits a step, with digits from -2 to 2. Two constants, taken from the leading bits of the divisor,
// choose each digit, so that no multiple of the divisor has to be tried.
#![tactic(auto)]

ghost use Rattle.std.specs.Prelude.{◌≡◌, ◌+◌, ◌*◌, ◌^◌, ◌<◌, ◌≤◌, pos, ◌+ℤ◌, ◌*ℤ◌, ◌<ℤ◌};
ghost use Rattle.engines.specs.Band.{Band};
ghost use Rattle.engines.specs.Meaning.{none};
ghost use Rattle.radix4.specs.Selection.{Bounded, Selects};

use engines::{Engine, Log, Question};

#[derive(Drop)]
pub struct Radix4 {
    log: Log,
}

impl Radix4 {
    pub fn new() -> Radix4
        ensures { result.log ≡ none }
    {
        Radix4 { log: Log::new() }
    }
}

impl Engine for Radix4 {
    ghost logged = { λ e. e.log };

    fn estimate(&mut self, divisor: u32, dividend: u64) -> u32 {
        self.log.note(divisor, dividend).map_or(0, estimated)
    }

    fn log(&self) -> Log {
        self.log
    }
}

// The divisor, and from where on the next digit is to be 1 and 2, all at the scale of the remainder: a divisor of 24 bits
// has 50 there.
#[derive(Clone, Copy)]
struct Scale {
    wide: u64,
    one: u64,
    two: u64,
    ghost selects: { Selects wide one two },
    ghost narrow: { wide < 2 ^ 50 },
}

// The quotient digits found so far, joined, and what is left of the dividend, which may be below 0.
#[derive(Clone, Copy)]
struct Partial {
    quotient: u32,
    rest: i64,
}

// The digits found are a sixteenth of what is wanted, and up to two thirds off, which is less than 11 sixteenths.
fn estimated(question: Question) -> u32
    ensures { Band question.divisor question.dividend result }
{
    16 * fourfold(question) + 11
}

// Four times the quotient, up to two thirds off.
fn fourfold(question: Question) -> u32
    ensures below { 3 * (result * question.divisor) ≤ 12 * question.dividend + 2 * question.divisor }
    ensures above { 12 * question.dividend ≤ 3 * (result * question.divisor) + 2 * question.divisor }
    ensures short { result ≤ 2 ^ 27 }
{
    Scale::of(question).developed(question.dividend()).quotient
}

// From how many eighths on the digit is to be 1: two, and one more with the bit after the divisor's first.
fn from_one(question: Question) -> u32
    ensures { (question.divisor ≤ 3 * (2097152 * result)) × (3 * (2097152 * result) ≤ 2 * question.divisor) }
{
    question.divisor() >> 22
}

// From how many eighths on the digit is to be 2: six, and as many more as the three bits after the divisor's first say, but
// one less where the divisor is 13/16 or more.
fn from_two(question: Question) -> u32
    ensures { (4 * question.divisor ≤ 3 * (2097152 * result)) × ((3 * (2097152 * result) ≤ 5 * question.divisor) × (result < 16)) }
{
    let divisor = question.divisor();
    let less = (divisor + 3145728) >> 24;
    (divisor >> 20) - 2 - less
}

impl Scale {
    // An eighth of the scale's 2^50 is 2^47. By `of` and not by From, since the dividend is not in it.
    fn of(question: Question) -> Scale
        ensures { result.wide ≡ 67108864 * question.divisor }
    {
        Scale {
            wide: u64::from(question.divisor()) * 67108864,
            one: u64::from(from_one(question)) * 140737488355328,
            two: u64::from(from_two(question)) * 140737488355328,
        }
    }

    // 14 digits of the fraction `dividend / wide`, which is below a half.
    fn developed(self, dividend: u64) -> Partial
        requires { 2 * dividend < self.wide }
        ensures sum { pos (result.quotient * self.wide) +ℤ result.rest ≡ pos (268435456 * dividend) }
        ensures bounded { Bounded self.wide result.rest }
        ensures short { result.quotient ≤ 2 ^ 27 }
    {
        let mut found = Partial {
            quotient: 0,
            rest: dividend as i64,
        };
        for _done in 0u32..14 {
            found = found.step(self);
        }
        found
    }
}

impl Partial {
    // One digit: what is left, four times as large, less the digit times the divisor. Whichever digit the constants choose, what
    // is left stays within two thirds of the divisor. Where it is below 0, an earlier digit has gone too far.
    fn step(self, scale: Scale) -> Partial
        requires bounded { Bounded scale.wide self.rest }
        requires short { self.quotient < 2 ^ 28 }
        requires owing { self.rest <ℤ pos 0 → 0 < self.quotient }
        ensures sum { pos (result.quotient * scale.wide) +ℤ result.rest ≡ pos 4 *ℤ (pos (self.quotient * scale.wide) +ℤ self.rest) }
        ensures bounded { Bounded scale.wide result.rest }
        ensures owing { result.rest <ℤ pos 0 → 0 < result.quotient }
    {
        let wide = scale.wide as i64;
        let one = scale.one as i64;
        let two = scale.two as i64;
        let quotient = 4 * self.quotient;
        let rest = 4 * self.rest;
        if rest >= 0 {
            if rest >= two {
                Partial {
                    quotient: quotient + 2,
                    rest: rest - 2 * wide,
                }
            } else if rest >= one {
                Partial {
                    quotient: quotient + 1,
                    rest: rest - wide,
                }
            } else {
                Partial { quotient, rest }
            }
        } else if rest <= -two {
            Partial {
                quotient: quotient - 2,
                rest: rest + 2 * wide,
            }
        } else if rest <= -one {
            Partial {
                quotient: quotient - 1,
                rest: rest + wide,
            }
        } else {
            Partial { quotient, rest }
        }
    }
}
