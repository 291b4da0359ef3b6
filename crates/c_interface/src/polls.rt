// A meter's polls for C: begun, repeated, and ended by a reply or a lapse.
ghost use Rattle.std.specs.Prelude.{◌≡◌, None, MatchResult};
ghost use Rattle.meter.specs.Model.{refuses_poll, polled, replied, lapsed};
ghost use Rattle.c_interface.specs.Refusals.{answered};
ghost use Rattle.c_interface.specs.Held.{held};
ghost use Rattle.c_interface.specs.Calls.{next, reply_refusal, lapse_refusal, new_held, new_refused, new_answer, poll_refused, poll_answer, repeat_refused, repeat_answer, reply_refused, reply_answer, lapse_refused, lapse_answer, empty, no_poll};

use crate::answer::{MeterAnswer, PollAnswer, RepeatAnswer, ReplyAnswer};
use crate::chosen::{engine_numbered, rule_numbered};
use crate::data::MeterData;
use crate::refusal::{Refusal, Unknown};
use crate::restored::restored;
use crate::shown::shown;
use meter::address::Address;
use named_polls::named;
use replay::step::SeenPoll;
use replay::tokens::token_of;
use rounding::encoding::Encoding;

// A meter at rest, with nothing standing; all numbers 0 where it is refused.
fn empty(address: u8, engine: u8, rule: u8) -> MeterData
    ensures { result ≡ empty address engine rule }
{
    let replies = [0; 288];
    MeterData {
        replies,
        standing: 0,
        address,
        engine,
        rule,
        pending: 0,
    }
}

// The address of a new meter, once all its numbers are checked. What is answered is made only where C gets it, since it is a whole meter.
fn addressed(address: u16, engine: u8, rule: u8) -> Result<Address, Refusal>
    ensures { MatchResult result (λ a. (new_answer address engine rule ≡ record { meter = empty a.number engine rule; refused = 0 }) × (new_held address engine rule ≡ held (empty a.number engine rule))) (λ refusal. (new_answer address engine rule ≡ new_refused refusal) × (new_held address engine rule ≡ None)) }
{
    let _ = engine_numbered(engine)?;
    let _ = rule_numbered(rule)?;
    Ok(Address::try_from(address)?)
}

#[unsafe(no_mangle)]
pub extern "C" fn wozkerrim_meter_new(address: u16, engine: u8, rule: u8) -> MeterAnswer
    ensures answer { result ≡ new_answer address engine rule }
    ensures stands { held result.meter ≡ new_held address engine rule }
{
    let checked = match addressed(address, engine, rule) {
        Ok(checked) => checked,
        Err(refusal) => return MeterAnswer {
            meter: empty(0, 0, 0),
            refused: refusal.number(),
        },
    };
    MeterAnswer {
        meter: empty(checked.number(), engine, rule),
        refused: 0,
    }
}

// The type is the replay's, so no Default can be derived here.
fn no_poll() -> SeenPoll
    ensures { result ≡ no_poll }
{
    SeenPoll {
        address: 0,
        attempt: 0,
    }
}

#[inline(always)]
fn begun(meter: &MeterData) -> Result<PollAnswer, Refusal>
    ensures answer { answered result (poll_refused meter.now) ≡ poll_answer meter.now }
    ensures stands { held (answered result (poll_refused meter.now)).meter ≡ next meter.now refuses_poll polled }
{
    let mut held = restored(meter)?;
    let poll = held.poll()?;
    Ok(PollAnswer {
        meter: shown(meter, &held),
        poll: poll.into(),
        refused: 0,
    })
}

#[unsafe(no_mangle)]
pub extern "C" fn wozkerrim_poll(meter: MeterData) -> PollAnswer
    ensures answer { result ≡ poll_answer meter }
    ensures stands { held result.meter ≡ next meter refuses_poll polled }
{
    begun(&meter).unwrap_or_else(|refusal| PollAnswer {
        meter,
        poll: no_poll(),
        refused: refusal.number(),
    })
}

#[inline(always)]
fn repeated(meter: &MeterData, poll: SeenPoll) -> Result<RepeatAnswer, Refusal>
    ensures { answered result (repeat_refused poll) ≡ repeat_answer meter.now poll }
{
    let mut held = restored(meter)?;
    let known = named(poll).ok_or(Unknown::Poll)?;
    let next = held.repeat(token_of(known))?;
    Ok(RepeatAnswer {
        poll: next.into(),
        refused: 0,
    })
}

// The same poll at its next attempt; a refused one comes back as it was.
#[unsafe(no_mangle)]
pub extern "C" fn wozkerrim_repeat(meter: MeterData, poll: SeenPoll) -> RepeatAnswer
    ensures { result ≡ repeat_answer meter poll }
{
    repeated(&meter, poll).unwrap_or_else(|refusal| RepeatAnswer {
        poll,
        refused: refusal.number(),
    })
}

#[inline(always)]
fn replied(meter: &MeterData, poll: SeenPoll, reply: Encoding) -> Result<ReplyAnswer, Refusal>
    ensures answer { answered result (reply_refused meter.now poll) ≡ reply_answer meter.now poll reply.bits }
    ensures stands { held (answered result (reply_refused meter.now poll)).meter ≡ next meter.now (reply_refusal poll reply.bits) (λ m. replied m reply) }
{
    let mut held = restored(meter)?;
    let known = named(poll).ok_or(Unknown::Poll)?;
    let standing = held.reply(token_of(known), reply)?;
    Ok(ReplyAnswer {
        meter: shown(meter, &held),
        poll: no_poll(),
        standing: standing as u16,
        refused: 0,
    })
}

// The reply stands as the newest and the poll is over; a refused one comes back as it was.
#[unsafe(no_mangle)]
pub extern "C" fn wozkerrim_reply(meter: MeterData, poll: SeenPoll, bits: u32) -> ReplyAnswer
    ensures answer { result ≡ reply_answer meter poll bits }
    ensures stands { held result.meter ≡ next meter (reply_refusal poll bits) (λ m. replied m (record { bits = bits })) }
{
    replied(&meter, poll, Encoding::from_bits(bits)).unwrap_or_else(|refusal| ReplyAnswer {
        meter,
        poll,
        standing: 0,
        refused: refusal.number(),
    })
}

#[inline(always)]
fn lapsed(meter: &MeterData, poll: SeenPoll) -> Result<MeterAnswer, Refusal>
    ensures answer { answered result (lapse_refused meter.now) ≡ lapse_answer meter.now poll }
    ensures stands { held (answered result (lapse_refused meter.now)).meter ≡ next meter.now (lapse_refusal poll) lapsed }
{
    let mut held = restored(meter)?;
    let known = named(poll).ok_or(Unknown::Poll)?;
    held.lapse(token_of(known))?;
    Ok(MeterAnswer {
        meter: shown(meter, &held),
        refused: 0,
    })
}

// The poll is over without a reply.
#[unsafe(no_mangle)]
pub extern "C" fn wozkerrim_lapse(meter: MeterData, poll: SeenPoll) -> MeterAnswer
    ensures answer { result ≡ lapse_answer meter poll }
    ensures stands { held result.meter ≡ next meter (lapse_refusal poll) lapsed }
{
    lapsed(&meter, poll).unwrap_or_else(|refusal| MeterAnswer {
        meter,
        refused: refusal.number(),
    })
}
