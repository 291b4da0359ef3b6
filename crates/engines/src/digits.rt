// `digits`: the restoring recurrence, one quotient bit a step. Its estimate is exact, rounded up.
ghost use Rattle.std.specs.Prelude.{◌≡◌, ◌+◌, ◌*◌, ◌^◌, ◌<◌, ◌≤◌, true};
ghost use Rattle.engines.specs.Band.{in_range, Estimate};
ghost use Rattle.engines.specs.Digits.{Ceiling};
ghost use Rattle.engines.specs.Meaning.{none, noted};

use crate::interface::Engine;
use crate::meaning::Log;
use crate::question::Question;

#[derive(Drop)]
pub struct Digits {
    log: Log,
}

impl Digits {
    pub fn new() -> Digits
        ensures { result.log ≡ none }
    {
        Digits { log: Log::new() }
    }
}

impl Engine for Digits {
    ghost logged = { λ e. e.log };

    fn estimate(&mut self, divisor: u32, dividend: u64) -> u32
        ensures value { Estimate divisor dividend result }
        ensures after { self.new.log ≡ noted self.old.log divisor dividend }
        ensures exact { in_range divisor dividend ≡ true → Ceiling divisor dividend result }
    {
        self.log.note(divisor, dividend).map_or(0, rounded_up)
    }

    fn log(&self) -> Log {
        self.log
    }
}

// The quotient bits found so far, and what is left of the dividend.
#[derive(Clone, Copy)]
struct Partial {
    bits: u32,
    rest: u64,
}

// 64 times the quotient, rounded up.
fn rounded_up(question: Question) -> u32
    ensures { Ceiling question.divisor question.dividend result }
{
    let whole = developed(question);
    if whole.rest == 0 {
        whole.bits
    } else {
        whole.bits + 1
    }
}

// 31 bits of the fraction `dividend / wide`: one before its point would be 0.
fn developed(question: Question) -> Partial
    ensures sum { result.bits * (33554432 * question.divisor) + result.rest ≡ 2147483648 * question.dividend }
    ensures less { result.rest < 33554432 * question.divisor }
    ensures short { result.bits < 2 ^ 31 }
{
    let wide = 33554432 * u64::from(question.divisor());
    let mut found = Partial {
        bits: 0,
        rest: question.dividend(),
    };
    for _done in 0u32..31 {
        found = found.step(wide);
    }
    found
}

impl Partial {
    // Doubles what is left and takes `wide` away where it can: the next bit says whether it could.
    fn step(self, wide: u64) -> Partial
        requires { (wide < 2 ^ 49) × ((self.rest < wide) × (self.bits < 2 ^ 31)) }
        ensures sum { result.bits * wide + result.rest ≡ 2 * (self.bits * wide + self.rest) }
        ensures less { result.rest < wide }
    {
        let doubled = 2 * self.rest;
        if doubled < wide {
            Partial {
                bits: 2 * self.bits,
                rest: doubled,
            }
        } else {
            Partial {
                bits: 2 * self.bits + 1,
                rest: doubled - wide,
            }
        }
    }
}
