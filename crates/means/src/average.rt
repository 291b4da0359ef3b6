// The mean and the mean square of what stands in a window.
ghost use Rattle.std.specs.Prelude.{◌≡◌, ◌<◌, length, MatchResult, OnErr, bit_or};
ghost use Rattle.arithmetic.specs.Defined.{Gives};
ghost use Rattle.window.specs.Window.{standing};
ghost use Rattle.means.specs.Defined.{average_of, average_log};

use crate::answering::answer_ask;
use arithmetic::standing::StandingFlags;
use engines::Engine;
use rounding::round::Answer;
use rounding::rule::Rule;
use window::average::Average;
use window::fault::WindowFault;
use window::window::Window;

// The exact average, rounded once; its flags are gathered. Refused where none stands.
pub fn average<E: Engine, R: Rule>(
    window: &Window,
    which: Average,
    engine: &mut E,
    rule: &R,
    flags: &mut StandingFlags,
) -> Result<Answer, WindowFault>
    ensures result { MatchResult result (λ a. (0 < length (standing window.now)) × Gives a (average_of which (R.meaning rule.now) (standing window.now))) (λ fault. (length (standing window.now) ≡ 0) × (fault ≡ WindowFault.Empty)) }
    ensures gathered { MatchResult result (λ a. flags.new.raised.number ≡ bit_or flags.old.raised.number a.flags.number) (λ _. flags.new ≡ flags.old) }
    ensures asked { E.logged engine.new ≡ average_log which (E.logged engine.old) (standing window.now) }
    ensures untouched { OnErr result (engine.new ≡ engine.old) }
{
    let answer = answer_ask(engine, rule, window.ask(which)?);
    flags.raise(answer.flags);
    Ok(answer)
}
