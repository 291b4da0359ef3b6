// `cubic`: a reciprocal of the divisor from a cubic polynomial, refined until the dividend times it lies in the band.
#![tactic(auto)]

ghost use Rattle.std.specs.Prelude.{◌≡◌};
ghost use Rattle.engines.specs.Meaning.{none};

mod refinement;
mod start;

use engines::{Engine, Log};
use start::Started;

#[derive(Drop)]
pub struct Cubic {
    log: Log,
}

impl Cubic {
    pub fn new() -> Cubic
        ensures { result.log ≡ none }
    {
        Cubic { log: Log::new() }
    }
}

impl Engine for Cubic {
    ghost logged = { λ e. e.log };

    fn estimate(&mut self, divisor: u32, dividend: u64) -> u32 {
        self.log
            .note(divisor, dividend)
            .map_or(0, |question| Started::new(question).estimated())
    }

    fn log(&self) -> Log {
        self.log
    }
}
