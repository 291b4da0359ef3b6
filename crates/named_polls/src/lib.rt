// Polls by their numbers: which two numbers name a poll that a meter can have given.
#![tactic(auto)]

ghost use Rattle.std.specs.Prelude.{◌≡◌, true, false, MatchOption};
ghost use Rattle.meter.specs.Attempts.{attempt_number};
ghost use Rattle.named_polls.specs.Numbers.{is_poll};

use meter::address::Address;
use meter::call::{Attempt, NamedPoll};
use replay::step::SeenPoll;

// The poll of these numbers, where a meter can have given one. Any two numbers may come from outside. No TryFrom: both types are other crates'.
pub fn named(seen: SeenPoll) -> Option<NamedPoll>
    ensures { MatchOption result (is_poll seen ≡ false) (λ poll. (is_poll seen ≡ true) × (poll.address.number ≡ seen.address) × (attempt_number poll.attempt ≡ seen.attempt)) }
{
    let address = Address::try_from(u16::from(seen.address)).ok()?;
    let attempt = Attempt::try_from(seen.attempt).ok()?;
    Some(NamedPoll { address, attempt })
}
