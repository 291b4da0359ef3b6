// Which engine, by name: a plain enum that is an engine itself, so that a program can pick one as it runs.
#![tactic(auto)]

ghost use Rattle.std.specs.Prelude.{◌≡◌};
ghost use Rattle.engines.specs.Meaning.{none};
ghost use Rattle.engine_choice.specs.Choice.{named, log_of};

use cubic::Cubic;
use engines::digits::Digits;
use engines::{Engine, Log};
use radix4::Radix4;

#[derive(Clone, Copy)]
pub enum EngineName {
    Digits,
    Radix4,
    Cubic,
}

#[derive(Drop)]
pub enum AnyEngine {
    Digits(Digits),
    Radix4(Radix4),
    Cubic(Cubic),
}

impl AnyEngine {
    pub fn new(name: EngineName) -> AnyEngine
        ensures which { named result ≡ name }
        ensures fresh { log_of result ≡ none }
    {
        match name {
            EngineName::Digits => AnyEngine::Digits(Digits::new()),
            EngineName::Radix4 => AnyEngine::Radix4(Radix4::new()),
            EngineName::Cubic => AnyEngine::Cubic(Cubic::new()),
        }
    }
}

impl Engine for AnyEngine {
    ghost logged = { log_of };

    fn estimate(&mut self, divisor: u32, dividend: u64) -> u32 {
        match self {
            AnyEngine::Digits(engine) => engine.estimate(divisor, dividend),
            AnyEngine::Radix4(engine) => engine.estimate(divisor, dividend),
            AnyEngine::Cubic(engine) => engine.estimate(divisor, dividend),
        }
    }

    fn log(&self) -> Log {
        match self {
            AnyEngine::Digits(engine) => engine.log(),
            AnyEngine::Radix4(engine) => engine.log(),
            AnyEngine::Cubic(engine) => engine.log(),
        }
    }
}
