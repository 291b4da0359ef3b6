// The whole quotient, from one estimate of any engine.
ghost use Rattle.std.specs.Prelude.{◌≡◌};
ghost use Rattle.engines.specs.Band.{quotient};
ghost use Rattle.engines.specs.Meaning.{noted};

use crate::interface::Engine;

// The whole part of `dividend / divisor`, or 0 where the pair is out of range: any two numbers may be asked here too.
// The whole part of a 64th of the estimate is never below it, and at most one above.
pub fn whole_quotient<E: Engine>(engine: &mut E, divisor: u32, dividend: u64) -> u32
    ensures value { result ≡ quotient divisor dividend }
    ensures after { E.logged engine.new ≡ noted (E.logged engine.old) divisor dividend }
{
    let candidate = engine.estimate(divisor, dividend) / 64;
    if candidate as u64 * divisor as u64 > dividend {
        candidate - 1
    } else {
        candidate
    }
}
