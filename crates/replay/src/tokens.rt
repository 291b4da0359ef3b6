// Tokens for named polls: made by a meter of their own, since a poll may come from any meter, and ended where it changes nothing.
ghost use Rattle.std.specs.Prelude.{◌≡◌, ◌+◌, Some, None};
ghost use Rattle.meter.specs.Attempts.{attempt_number};
ghost use Rattle.meter.specs.Model.{fresh, refuses_repeat};

use crate::step::{Refusal, SeenPoll};
use engines::digits::Digits;
use meter::address::Address;
use meter::call::{Attempt, NamedPoll};
use meter::meter::Meter;
use meter::token::{PendingPoll, Refused};
use rounding::rules::Even;

// A new meter whose answers nobody reads.
fn bystander(address: Address) -> Meter<Digits, Even>
    ensures { result.model ≡ fresh address.number }
{
    Meter::new(address, Digits::new(), Even)
}

// One more attempt, where one is left.
fn repeated(source: &mut Meter<Digits, Even>, poll: PendingPoll) -> PendingPoll
    requires { refuses_repeat source.old.model poll.address poll.attempt ≡ None }
    ensures poll { (result.address ≡ poll.address) × (result.attempt ≡ poll.attempt + 1) }
    ensures after { source.new.model ≡ source.old.model }
{
    source
        .repeat(poll)
        .unwrap_or_else(|Refused { poll, fault: _ }| poll)
}

// The named poll. No From: both types are the meter's.
pub fn token_of(named: NamedPoll) -> PendingPoll
    ensures { (result.address ≡ named.address.number) × (result.attempt ≡ attempt_number named.attempt) }
{
    let mut source = bystander(named.address);
    let first = source.poll().unwrap();
    match named.attempt {
        Attempt::First => first,
        Attempt::Second => repeated(&mut source, first),
        Attempt::Third => {
            let second = repeated(&mut source, first);
            repeated(&mut source, second)
        }
    }
}

// What a token shows. It is ended by a lapse at a bystander, of whatever address, so that the meter that waits for it still waits.
impl From<PendingPoll> for SeenPoll {
    ghost from_gives = { λ poll seen. seen ≡ record { address = poll.address; attempt = poll.attempt } };

    fn from(poll: PendingPoll) -> SeenPoll {
        let seen = SeenPoll {
            address: poll.address(),
            attempt: poll.attempt(),
        };
        let mut other = bystander(Address::try_from(1u16).unwrap());
        let _ = other.lapse(poll);
        seen
    }
}

impl From<Refused> for Refusal {
    ghost from_gives = { λ back refusal. refusal ≡ record { fault = back.fault; poll = Some (record { address = back.poll.address; attempt = back.poll.attempt }) } };

    fn from(back: Refused) -> Refusal {
        let Refused { poll, fault } = back;
        Refusal {
            fault,
            poll: Some(SeenPoll::from(poll)),
        }
    }
}
