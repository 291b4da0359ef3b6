// The meter that C's numbers stand for: checked, and rebuilt through a meter's public calls.
ghost use Rattle.std.specs.Prelude.{◌≡◌, ◌≤◌, true, false, length, take, Some, None, IfOk, MatchResult};
ghost use Rattle.engines.specs.Meaning.{none};
ghost use Rattle.engine_choice.specs.Choice.{named, log_of};
ghost use Rattle.meter.specs.Model.{fresh};
ghost use Rattle.c_interface.specs.Held.{held, encodings, all_finite};
ghost use Rattle.c_interface.specs.Numbers.{engine_numbered, rule_numbered};

use crate::chosen::{engine_numbered, rule_numbered};
use crate::data::MeterData;
use crate::refusal::{Refusal, Unknown};
use engine_choice::{AnyEngine, EngineName};
use meter::address::Address;
use meter::meter::Meter;
use replay::step::SeenPoll;
use rounding::encoding::Encoding;
use rounding::rules::AnyRule;

// What a new meter is made of, and the replies that it is given.
struct Stored<'a> {
    address: Address,
    engine: EngineName,
    rule: AnyRule,
    replies: &'a [u32],
}

// Where the numbers name them. Everything that can be wrong, but for a reply, is seen here, before the work of putting replies back.
fn parts(numbers: &MeterData) -> Result<Stored<'_>, Refusal>
    ensures { MatchResult result (λ p. (engine_numbered numbers.now.engine ≡ Some p.engine) × (rule_numbered numbers.now.rule ≡ Some p.rule) × (p.address.number ≡ numbers.now.address) × (p.replies.now ≡ take numbers.now.standing numbers.now.replies) × (length p.replies.now ≤ 288) × (numbers.now.standing ≤ 288) × (numbers.now.pending ≤ 1)) (λ _. held numbers.now ≡ None) }
{
    let engine = engine_numbered(numbers.engine)?;
    let rule = rule_numbered(numbers.rule)?;
    let address = Address::try_from(u16::from(numbers.address))?;
    let replies = numbers
        .replies
        .get(..numbers.standing as usize)
        .ok_or(Unknown::Meter)?;
    if numbers.pending > 1 {
        return Err(Unknown::Meter.into());
    }
    Ok(Stored {
        address,
        engine,
        rule,
        replies,
    })
}

// The replies, put into a new meter by a poll each, and a last poll where one is pending; refused where one of the replies is not finite.
#[inline(never)]
fn refill(
    meter: &mut Meter<AnyEngine, AnyRule>,
    replies: &[u32],
    waits: bool,
) -> Result<(), Refusal>
    requires { (meter.old.model ≡ fresh meter.old.model.address) × (length replies.now ≤ 288) }
    ensures after { MatchResult result (λ _. (all_finite (encodings replies.now) ≡ true) × (meter.new.model ≡ record { address = meter.old.model.address; pending = waits; replies = encodings replies.now })) (λ _. all_finite (encodings replies.now) ≡ false) }
    ensures engine { meter.new.engine ≡ meter.old.engine }
    ensures rule { meter.new.rule ≡ meter.old.rule }
{
    for bits in replies {
        let poll = meter.poll()?;
        let _ = meter.reply(poll, Encoding::from_bits(*bits))?;
    }
    // A pending poll's token stays with C, as numbers.
    if waits {
        let poll = meter.poll()?;
        let _ = SeenPoll::from(poll);
    }
    Ok(())
}

// Whatever is wrong with the numbers, they stand for no meter. The engine is new, so what it notes is of one call. A meter is some kilobytes, and a
// Result of one would be filled and copied at each step: this is made a part of each call from C, where at most one copy is left.
#[inline(always)]
pub fn restored(numbers: &MeterData) -> Result<Meter<AnyEngine, AnyRule>, Unknown>
    ensures held { MatchResult result (λ m. held numbers.now ≡ Some (record { model = m.model; engine = named m.engine; rule = m.rule })) (λ unknown. (held numbers.now ≡ None) × (unknown ≡ Unknown.Meter)) }
    ensures fresh { IfOk result (λ m. log_of m.engine ≡ none) }
{
    let Ok(
        Stored {
            address,
            engine,
            rule,
            replies,
        },
    ) = parts(numbers)
    else {
        return Err(Unknown::Meter);
    };
    let mut meter = Meter::new(address, AnyEngine::new(engine), rule);
    match refill(&mut meter, replies, numbers.pending == 1) {
        Ok(()) => Ok(meter),
        Err(_) => Err(Unknown::Meter),
    }
}
