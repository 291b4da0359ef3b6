// What goes back to C: structs of plain numbers. A `refused` of 0 says that the call was accepted.
// C has no Option and no Result, so `refused`, `present` and a poll's two numbers stand beside the values.
ghost use Rattle.std.specs.Prelude.{◌≡◌};
ghost use Rattle.c_interface.specs.Numbers.{asked_of, number_refused, number_refusal, newest_told};

use crate::data::MeterData;
use crate::refusal::Refusal;
use engines::Log;
use replay::step::SeenPoll;
use rounding::encoding::Encoding;
use rounding::round::Answer;

// What a call asked its engine: how many estimates, and the last pair.
#[repr(C)]
#[derive(Clone, Copy)]
pub struct Asked {
    pub estimates: u32,
    pub divisor: u32,
    pub dividend: u64,
}

// An encoding with the flags that it raised.
#[repr(C)]
#[derive(Clone, Copy)]
pub struct NumberAnswer {
    pub bits: u32,
    pub flags: u8,
    pub refused: u8,
    pub asked: Asked,
}

impl From<Log> for Asked {
    ghost from_gives = { λ log asked. asked ≡ asked_of log };

    fn from(log: Log) -> Asked {
        Asked {
            estimates: log.estimates,
            divisor: log.divisor,
            dividend: log.dividend,
        }
    }
}

impl NumberAnswer {
    pub fn accepted(answer: Answer, log: Log) -> NumberAnswer
        ensures { result ≡ record { bits = answer.encoding.bits; flags = answer.flags.number; refused = 0; asked = asked_of log } }
    {
        NumberAnswer {
            bits: answer.encoding.to_bits(),
            flags: answer.flags.number(),
            refused: 0,
            asked: log.into(),
        }
    }

    // Any number may be told of a refusal; a refusal tells its own.
    pub fn refused(refused: u8) -> NumberAnswer
        ensures { result ≡ number_refused refused }
    {
        NumberAnswer {
            bits: 0,
            flags: 0,
            refused,
            asked: Log::new().into(),
        }
    }
}

impl From<Refusal> for NumberAnswer {
    ghost from_gives = { λ refusal answer. answer ≡ number_refusal refusal };

    fn from(refusal: Refusal) -> NumberAnswer {
        NumberAnswer::refused(refusal.number())
    }
}

// A meter, as a call leaves it.
#[repr(C)]
#[derive(Clone, Copy)]
pub struct MeterAnswer {
    pub meter: MeterData,
    pub refused: u8,
}

// A poll that was begun, with its meter.
#[repr(C)]
#[derive(Clone, Copy)]
pub struct PollAnswer {
    pub meter: MeterData,
    pub poll: SeenPoll,
    pub refused: u8,
}

// A poll at its next attempt, or as it was; its meter stays.
#[repr(C)]
#[derive(Clone, Copy)]
pub struct RepeatAnswer {
    pub poll: SeenPoll,
    pub refused: u8,
}

// How many replies stand once one more does; a refused poll comes back.
#[repr(C)]
#[derive(Clone, Copy)]
pub struct ReplyAnswer {
    pub meter: MeterData,
    pub poll: SeenPoll,
    pub standing: u16,
    pub refused: u8,
}

// How many replies stand once one is gone.
#[repr(C)]
#[derive(Clone, Copy)]
pub struct CountAnswer {
    pub meter: MeterData,
    pub standing: u16,
    pub refused: u8,
}

// The greatest reply, and its place counted from 1 at the oldest.
#[repr(C)]
#[derive(Clone, Copy)]
pub struct PeakAnswer {
    pub place: u16,
    pub bits: u32,
    pub refused: u8,
}

// The newest reply, where `present` is 1.
#[repr(C)]
#[derive(Clone, Copy)]
pub struct NewestAnswer {
    pub bits: u32,
    pub present: u8,
    pub refused: u8,
}

impl From<Option<Encoding>> for NewestAnswer {
    ghost from_gives = { λ newest answer. answer ≡ newest_told newest };

    fn from(newest: Option<Encoding>) -> NewestAnswer {
        NewestAnswer {
            bits: newest.map_or(0, |reply| reply.to_bits()),
            present: newest.is_some() as u8,
            refused: 0,
        }
    }
}
