// The five exception flags, as a set with a number: invalid 1, zero divide 2, overflow 4, underflow 8, inexact 16, added up.
ghost use Rattle.std.specs.Prelude.{◌≡◌, bit_or};
ghost use Rattle.rounding.specs.Rounding.{inexact_flags};

use crate::rest::Rest;

#[derive(Clone, Copy)]
pub struct Flags {
    number: u8,
}

// Each set is given by a function, since a constant carries no contract.
impl Flags {
    pub const fn none() -> Flags
        ensures { result.number ≡ 0 }
    {
        Flags { number: 0 }
    }

    pub const fn invalid() -> Flags
        ensures { result.number ≡ 1 }
    {
        Flags { number: 1 }
    }

    pub const fn zero_divide() -> Flags
        ensures { result.number ≡ 2 }
    {
        Flags { number: 2 }
    }

    // An overflow is inexact too.
    pub const fn overflow() -> Flags
        ensures { result.number ≡ 20 }
    {
        Flags { number: 20 }
    }

    // What a rest raises, where the value did not overflow: nothing if there is none, else inexact, with underflow if it was tiny.
    pub fn of_rest(rest: Rest, tiny: bool) -> Flags
        ensures { result.number ≡ inexact_flags rest tiny }
    {
        match rest {
            Rest::Nothing => Flags { number: 0 },
            Rest::UnderHalf | Rest::Half | Rest::OverHalf => Flags {
                number: if tiny { 24 } else { 16 },
            },
        }
    }

    pub const fn number(self) -> u8
        ensures { result ≡ self.number }
    {
        self.number
    }

    // The flags of both.
    pub fn union(self, other: Flags) -> Flags
        ensures { result.number ≡ bit_or self.number other.number }
    {
        Flags {
            number: self.number | other.number,
        }
    }
}
