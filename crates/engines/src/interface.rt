// What every engine promises, whoever writes it.
ghost use Rattle.std.specs.Prelude.{◌≡◌};
ghost use Rattle.engines.specs.Band.{Estimate};
ghost use Rattle.engines.specs.Meaning.{noted};
ghost use Rattle.engines.specs.declared.meaning.Log.{Log};

use crate::meaning::Log;

// Each engine implements it itself, the three here with a log of their own, by a rule of the project: to write a divider is to write this. A shell
// that holds the log for any divider would be one more trait to read, and would save a field and a getter.
pub trait Engine {
    // The engine's meaning. Two engines of one meaning may still answer differently inside the band.
    ghost logged: { Self → Log };

    // An estimate of 64 times the quotient, never below it and less than 64 above; 0 for a pair out of range. Two numbers and no Question, since any
    // pair may be asked, by a rule of the project.
    fn estimate(&mut self, divisor: u32, dividend: u64) -> u32
        ensures value { Estimate divisor dividend result }
        ensures after { logged self.new ≡ noted (logged self.old) divisor dividend };

    fn log(&self) -> Log
        ensures { result ≡ logged self.now };
}
