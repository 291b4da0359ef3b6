// Why a call from C is refused: by what only a C caller can do wrong, or by what a meter refuses.
ghost use Rattle.std.specs.Prelude.{◌≡◌};
ghost use Rattle.c_interface.specs.Refusals.{number, refusal_number};
ghost use Rattle.c_interface.specs.declared.refusal.Refusal.TheVariants as refusals;

use meter::fault::MeterFault;
use meter::token::Refused;
use replay::step::SeenPoll;

// A number that names something that there is not.
#[derive(Clone, Copy)]
pub enum Unknown {
    Engine = 101,
    Rule = 102,
    Meter = 103,
    Poll = 104,
}

#[derive(Clone, Copy)]
pub enum Refusal {
    Unknown(Unknown),
    Fault(MeterFault),
}

impl Unknown {
    pub fn number(self) -> u8
        ensures { result ≡ number self }
    {
        self as u8
    }
}

impl Refusal {
    pub fn number(self) -> u8
        ensures { result ≡ refusal_number self }
    {
        match self {
            Refusal::Unknown(unknown) => unknown.number(),
            Refusal::Fault(fault) => fault.number(),
        }
    }
}

impl From<Unknown> for Refusal {
    ghost from_gives = { λ unknown r. r ≡ refusals.Unknown unknown };

    fn from(unknown: Unknown) -> Refusal {
        Refusal::Unknown(unknown)
    }
}

impl From<MeterFault> for Refusal {
    ghost from_gives = { λ fault r. r ≡ refusals.Fault fault };

    fn from(fault: MeterFault) -> Refusal {
        Refusal::Fault(fault)
    }
}

// The poll that was handed back ends here: C still holds its numbers.
impl From<Refused> for Refusal {
    ghost from_gives = { λ back r. r ≡ refusals.Fault back.fault };

    fn from(back: Refused) -> Refusal {
        let Refused { poll, fault } = back;
        let _ = SeenPoll::from(poll);
        Refusal::Fault(fault)
    }
}
