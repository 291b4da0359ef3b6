// The calls of a meter as values: what each is given. A poll is named by its address and attempt, from whatever meter it came.
ghost use Rattle.std.specs.Prelude.{◌≡◌};
ghost use Rattle.meter.specs.Attempts.{attempt_number, AttemptOf};

use crate::address::Address;
use rounding::encoding::Encoding;

// A poll is tried at most three times.
#[derive(Clone, Copy)]
pub enum Attempt {
    First = 1,
    Second = 2,
    Third = 3,
}

// A number that no attempt has.
#[derive(Clone, Copy)]
pub struct UnknownAttempt(pub u8);

impl Attempt {
    pub fn number(self) -> u8
        ensures { result ≡ attempt_number self }
    {
        self as u8
    }
}

impl TryFrom<u8> for Attempt {
    type Error = UnknownAttempt;

    ghost try_from_gives = { AttemptOf };

    fn try_from(number: u8) -> Result<Self, UnknownAttempt> {
        match number {
            1 => Ok(Attempt::First),
            2 => Ok(Attempt::Second),
            3 => Ok(Attempt::Third),
            _ => Err(UnknownAttempt(number)),
        }
    }
}

#[derive(Clone, Copy)]
pub struct NamedPoll {
    pub address: Address,
    pub attempt: Attempt,
}

// The ten calls by their names, a mean and a mean square among them, as the promise over whole runs lists them.
#[derive(Clone, Copy)]
pub enum Call {
    Poll,
    Repeat(NamedPoll),
    Reply(NamedPoll, Encoding),
    Lapse(NamedPoll),
    Retire,
    Retract,
    Quotient {
        dividend: Encoding,
        divisor: Encoding,
    },
    Square {
        operand: Encoding,
    },
    Mean,
    MeanSquare,
}
