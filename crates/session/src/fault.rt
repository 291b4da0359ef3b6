// What a line is refused for. A fault of the meter is carried inside, with its layer and number, by a rule of the project.
ghost use Rattle.std.specs.Prelude.{◌≡◌};
ghost use Rattle.session.specs.Faults.{number, layer_of};
ghost use Rattle.session.specs.declared.fault.ConsoleFault.TheVariants as faults;

use meter::fault::{Layer, MeterFault};

#[derive(Clone, Copy)]
pub enum ConsoleFault {
    // The line has no form, or one that does not fit: before the meter is set up every other, afterwards that one.
    Text,
    Meter(MeterFault),
}

impl ConsoleFault {
    // Matches and no casts: a fault of the meter has its own number and layer.
    pub fn number(self) -> u8
        ensures { result ≡ number self }
    {
        match self {
            ConsoleFault::Text => 1,
            ConsoleFault::Meter(fault) => fault.number(),
        }
    }

    pub fn layer(self) -> Layer
        ensures { result ≡ layer_of self }
    {
        match self {
            ConsoleFault::Text => Layer::Text,
            ConsoleFault::Meter(fault) => fault.layer(),
        }
    }
}

// Carries a meter's fault up through `?`.
impl From<MeterFault> for ConsoleFault {
    ghost from_gives = { λ m r. r ≡ faults.Meter m };

    fn from(lower: MeterFault) -> ConsoleFault {
        ConsoleFault::Meter(lower)
    }
}
