// A call with what is written down of it.
ghost use Rattle.std.specs.Prelude.{◌≡◌, ◌-◌, ◌++◌, length, replicate};
ghost use Rattle.meter.specs.Model.{after};
ghost use Rattle.replay.specs.Calls.{asked};
ghost use Rattle.replay.specs.Runs.{Right};

use crate::perform::perform;
use crate::step::{ROOM, Step};
use arithmetic::standing::StandingFlags;
use engines::Engine;
use meter::call::Call;
use meter::meter::Meter;
use rounding::encoding::Encoding;
use rounding::rule::Rule;

// The standing replies, oldest first, with zeros behind them.
pub fn standing_of<E: Engine, R: Rule>(meter: &Meter<E, R>) -> [Encoding; ROOM]
    ensures { result ≡ meter.now.model.replies ++ replicate (288 - length meter.now.model.replies) (record { bits = 0 }) }
{
    // A loop over the replies that stand, and no array made cell by cell: where few stand, that is a fraction of the work.
    let blank = Encoding::from_bits(0);
    let mut list = [blank; ROOM];
    for i in 0..meter.standing() {
        if let Some(reply) = meter.reply_at(i) {
            list[i] = reply;
        }
    }
    list
}

// Performs a call and tells of it.
pub fn step<E: Engine, R: Rule>(
    meter: &mut Meter<E, R>,
    flags: &mut StandingFlags,
    call: Call,
) -> Step
    ensures right { Right (R.meaning meter.old.rule) (E.logged meter.old.engine) meter.old.model call result }
    ensures after { meter.new.model ≡ after meter.old.model call }
    ensures engine { E.logged meter.new.engine ≡ asked (E.logged meter.old.engine) meter.old.model call }
    ensures rule { meter.new.rule ≡ meter.old.rule }
{
    let told = perform(meter, flags, call);
    let standing = standing_of(meter);
    Step {
        told,
        log: meter.log(),
        count: meter.standing(),
        standing,
    }
}
