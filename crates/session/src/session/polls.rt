// The polls, each begun and ended within its line.
ghost use Rattle.std.specs.Prelude.{◌≡◌, true, Some, None, MatchResult};
ghost use Rattle.forms.specs.declared.Form.TheVariants as form;
ghost use Rattle.session.specs.Answers.{Comes, ending_says, ended, refuses_polling};
ghost use Rattle.session.specs.Sessions.{at_desk};

use super::Desk;
use crate::fault::ConsoleFault;
use answers::Answer;
use forms::{Ending, Poll};
use meter::meter::Meter;
use meter::token::{PendingPoll, Refused};
use rounding::encoding::Encoding;

// A begun poll, repeated as often as said and then ended; one that is refused on its way is handed back.
fn carry_on<E, R>(
    meter: &mut Meter<E, R>,
    mut poll: PendingPoll,
    plan: Poll,
) -> Result<Answer, Refused>
    requires pending { meter.old.model.pending ≡ true }
    requires own { poll.address ≡ meter.old.model.address }
    requires begun { poll.attempt ≡ 1 }
    ensures result { MatchResult result (λ a. (refuses_polling meter.old.model plan ≡ None) × (a ≡ ending_says meter.old.model plan.ending) × (meter.new.model ≡ ended meter.old.model plan.ending)) (λ back. (refuses_polling meter.old.model plan ≡ Some back.fault) × (back.poll.address ≡ poll.address) × (meter.new.model ≡ meter.old.model)) }
    ensures engine { meter.new.engine ≡ meter.old.engine }
    ensures rule { meter.new.rule ≡ meter.old.rule }
{
    for _ in 0..plan.again {
        poll = meter.repeat(poll)?;
    }
    match plan.ending {
        Ending::Reply(bits) => {
            let standing = meter.reply(poll, Encoding::from_bits(bits))?;
            Ok(Answer::Taken(standing as u16))
        }
        Ending::Lapse => {
            meter.lapse(poll).unwrap();
            Ok(Answer::Lapsed(meter.standing() as u16))
        }
    }
}

impl Desk {
    // A poll that is refused on its way is lapsed.
    pub(crate) fn poll(&mut self, plan: Poll) -> Result<Answer, ConsoleFault>
        ensures { Comes (at_desk self.old) (form.Poll plan) result (at_desk self.new) }
    {
        let poll = self.meter.poll()?;
        // A match and no map_err, through which no proof would see that its closure lapses the poll at the meter.
        match carry_on(&mut self.meter, poll, plan) {
            Ok(answer) => Ok(answer),
            Err(Refused { poll, fault }) => {
                self.meter.lapse(poll).unwrap();
                Err(fault.into())
            }
        }
    }
}
