// The replay of two lists of calls on two fresh meters, and the promise over whole runs.
ghost use Rattle.std.specs.Prelude.{◌≡◌, min, length, take};
ghost use Rattle.meter.specs.Model.{fresh};
ghost use Rattle.replay.specs.Promise.{Promise};
ghost use Rattle.replay.specs.Runs.{asks_of, Written};

use crate::step::Step;
use crate::stepping::step;
use arithmetic::standing::StandingFlags;
use engines::Engine;
use meter::address::Address;
use meter::call::Call;
use meter::meter::Meter;
use rounding::rule::Rule;

// Performs as many calls as there is room for. Not a zip of both: after one, a proof knows nothing of what is written.
fn perform_all<E: Engine, R: Rule>(meter: &mut Meter<E, R>, calls: &[Call], steps: &mut [Step])
    ensures written { Written (R.meaning meter.old.rule) (E.logged meter.old.engine) meter.old.model calls.now steps.old steps.new }
    ensures engine { E.logged meter.new.engine ≡ asks_of (E.logged meter.old.engine) meter.old.model (take (min (length calls.now) (length steps.old)) calls.now) }
{
    let mut flags = StandingFlags::new();
    let mut left = calls.iter();
    for slot in steps.iter_mut() {
        let Some(call) = left.next() else { break };
        *slot = step(meter, &mut flags, *call);
    }
}

// What a new meter is made of.
pub struct Fitting<E, R> {
    pub address: Address,
    pub engine: E,
    pub rule: R,
}

// A new meter of this fitting is given the calls; its engine comes back.
fn run<E: Engine, R: Rule + Drop>(fitting: Fitting<E, R>, calls: &[Call], steps: &mut [Step]) -> E
    ensures written { Written (R.meaning fitting.rule) (E.logged fitting.engine) (fresh fitting.address.number) calls.now steps.old steps.new }
    ensures engine { E.logged result ≡ asks_of (E.logged fitting.engine) (fresh fitting.address.number) (take (min (length calls.now) (length steps.old)) calls.now) }
{
    let Fitting {
        address,
        engine,
        rule,
    } = fitting;
    let mut meter = Meter::new(address, engine, rule);
    perform_all(&mut meter, calls, steps);
    meter.into_engine()
}

// Makes two meters, whatever their engines and rules, and performs on each its list of calls, refused ones included, by public calls
// alone. What each call told is written into the lent room, as far as that goes; both engines come back.
pub fn replay<E: Engine, R: Rule + Drop, F: Engine, S: Rule + Drop>(
    first: Fitting<E, R>,
    first_calls: &[Call],
    first_steps: &mut [Step],
    second: Fitting<F, S>,
    second_calls: &[Call],
    second_steps: &mut [Step],
) -> (E, F)
    ensures promise { Promise (record { address = first.address.number; rule = R.Rule.meaning first.rule; engine = E.Engine.logged first.engine; calls = first_calls.now; lent = first_steps.old; steps = first_steps.new }) (record { address = second.address.number; rule = S.Rule.meaning second.rule; engine = F.Engine.logged second.engine; calls = second_calls.now; lent = second_steps.old; steps = second_steps.new }) }
    ensures first_engine { E.Engine.logged result.0 ≡ asks_of (E.Engine.logged first.engine) (fresh first.address.number) (take (min (length first_calls.now) (length first_steps.old)) first_calls.now) }
    ensures second_engine { F.Engine.logged result.1 ≡ asks_of (F.Engine.logged second.engine) (fresh second.address.number) (take (min (length second_calls.now) (length second_steps.old)) second_calls.now) }
{
    let first_engine = run(first, first_calls, first_steps);
    let second_engine = run(second, second_calls, second_steps);
    (first_engine, second_engine)
}
