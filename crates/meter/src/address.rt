// Inverter addresses: 1 to 247, checked once.
ghost use Rattle.std.specs.Prelude.{◌≡◌, ◌≤◌, Some, None, MatchResult};
ghost use Rattle.meter.specs.Addresses.{refuses_address};

use crate::fault::MeterFault;

#[derive(Clone, Copy)]
pub struct Address {
    number: u8,
    ghost valid: { (1 ≤ number) × (number ≤ 247) },
}

impl Address {
    pub fn number(self) -> u8
        ensures value { result ≡ self.number }
        ensures bound { (1 ≤ result) × (result ≤ 247) }
    {
        self.number
    }
}

// From outside comes any number, so that 248 and 999 are refused and never cut short.
impl TryFrom<u16> for Address {
    type Error = MeterFault;

    ghost try_from_gives = { λ number r. MatchResult r (λ a. (refuses_address number ≡ None) × (a.number ≡ number)) (λ fault. refuses_address number ≡ Some fault) };

    fn try_from(number: u16) -> Result<Self, MeterFault> {
        match number {
            1..=247 => Ok(Address {
                number: number as u8,
            }),
            _ => Err(MeterFault::Address),
        }
    }
}
