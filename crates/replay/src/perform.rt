// One call, performed on a meter through its public calls, and what it told.
ghost use Rattle.std.specs.Prelude.{◌≡◌};
ghost use Rattle.meter.specs.Model.{after};
ghost use Rattle.replay.specs.Calls.{told, asked};

use crate::step::{Refusal, SeenPoll, Told};
use crate::tokens::token_of;
use arithmetic::standing::StandingFlags;
use engines::Engine;
use meter::call::Call;
use meter::meter::Meter;
use rounding::rule::Rule;
use window::average::Average;

pub fn perform<E: Engine, R: Rule>(
    meter: &mut Meter<E, R>,
    flags: &mut StandingFlags,
    call: Call,
) -> Result<Told, Refusal>
    ensures told { result ≡ told (R.meaning meter.old.rule) meter.old.model call }
    ensures after { meter.new.model ≡ after meter.old.model call }
    ensures engine { E.logged meter.new.engine ≡ asked (E.logged meter.old.engine) meter.old.model call }
    ensures rule { meter.new.rule ≡ meter.old.rule }
{
    Ok(match call {
        Call::Poll => Told::Pending(SeenPoll::from(meter.poll()?)),
        Call::Repeat(named) => Told::Pending(SeenPoll::from(meter.repeat(token_of(named))?)),
        Call::Reply(named, encoding) => Told::Taken(meter.reply(token_of(named), encoding)?),
        Call::Lapse(named) => {
            meter.lapse(token_of(named))?;
            Told::Lapsed
        }
        Call::Retire => Told::Left(meter.retire()?),
        Call::Retract => Told::Left(meter.retract()?),
        Call::Quotient { dividend, divisor } => {
            Told::Number(meter.quotient(flags, dividend, divisor))
        }
        Call::Square { operand } => Told::Number(meter.square(flags, operand)),
        Call::Mean => Told::Number(meter.average(flags, Average::Mean)?),
        Call::MeanSquare => Told::Number(meter.average(flags, Average::MeanSquare)?),
    })
}
