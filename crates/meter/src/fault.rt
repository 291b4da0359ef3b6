// What a meter refuses. A fault of the window is carried inside, with its layer and number, by a rule of the project.
ghost use Rattle.std.specs.Prelude.{◌≡◌};
ghost use Rattle.meter.specs.Faults.{number, layer_of};
ghost use Rattle.meter.specs.declared.fault.MeterFault.TheVariants as faults;

use window::fault::WindowFault;

// Where a fault starts.
#[derive(Clone, Copy)]
pub enum Layer {
    Window,
    Poll,
    Text,
}

#[derive(Clone, Copy)]
pub enum MeterFault {
    Window(WindowFault),
    // An address of 0 or above 247.
    Address,
    // A reply that is a NaN or an infinity.
    NotFinite,
    // A poll of another address.
    OtherAddress,
    // A poll while one is pending.
    StillPending,
    // A repeat, reply or lapse while none is pending.
    NonePending,
    // A repeat at the third attempt.
    LastAttempt,
}

impl MeterFault {
    // A match and no cast: a fault of the window has its own number.
    pub fn number(self) -> u8
        ensures { result ≡ number self }
    {
        match self {
            MeterFault::Window(fault) => fault.number(),
            MeterFault::Address => 2,
            MeterFault::NotFinite => 3,
            MeterFault::OtherAddress => 4,
            MeterFault::StillPending => 5,
            MeterFault::NonePending => 6,
            MeterFault::LastAttempt => 9,
        }
    }

    pub fn layer(self) -> Layer
        ensures { result ≡ layer_of self }
    {
        match self {
            MeterFault::Window(_) => Layer::Window,
            _ => Layer::Poll,
        }
    }
}

// Carries a window's fault up through `?`.
impl From<WindowFault> for MeterFault {
    ghost from_gives = { λ w r. r ≡ faults.Window w };

    fn from(fault: WindowFault) -> MeterFault {
        MeterFault::Window(fault)
    }
}
