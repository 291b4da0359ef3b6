// What a replay writes down of each call.
ghost use Rattle.std.specs.Prelude.{◌≡◌, None};

use engines::Log;
use meter::fault::MeterFault;
use rounding::encoding::Encoding;
use rounding::round::Answer;

// How many replies a step has room for: as many as ever stand.
pub const ROOM: usize = 288;

// A poll as it was seen: its address and attempt. It crosses to C as it is.
#[repr(C)]
#[derive(Clone, Copy)]
pub struct SeenPoll {
    pub address: u8,
    pub attempt: u8,
}

// What an accepted call answers.
#[derive(Clone, Copy)]
pub enum Told {
    // A poll was begun or repeated, and is pending.
    Pending(SeenPoll),
    // A reply stands, with so many in all.
    Taken(usize),
    Lapsed,
    // A reply was taken away, and so many are left.
    Left(usize),
    Number(Answer),
}

// Why a call is refused, and the poll that was handed back where one was given.
#[derive(Clone, Copy)]
pub struct Refusal {
    pub fault: MeterFault,
    pub poll: Option<SeenPoll>,
}

impl From<MeterFault> for Refusal {
    ghost from_gives = { λ fault refusal. refusal ≡ record { fault = fault; poll = None } };

    fn from(fault: MeterFault) -> Refusal {
        Refusal { fault, poll: None }
    }
}

// A call's answer, the engine's meaning after it, and the replies that stand then, oldest first, with blanks behind them: a plain value of
// fixed size, since a replay has no heap.
#[derive(Clone, Copy)]
pub struct Step {
    pub told: Result<Told, Refusal>,
    pub log: Log,
    pub count: usize,
    pub standing: [Encoding; ROOM],
}
