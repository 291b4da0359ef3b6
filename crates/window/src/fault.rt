// What a window refuses.
ghost use Rattle.std.specs.Prelude.{◌≡◌};
ghost use Rattle.window.specs.Faults.{number};

#[derive(Clone, Copy)]
pub enum WindowFault {
    // As many replies stand as the window has room for.
    Full = 7,
    // No reply stands.
    Empty = 8,
}

impl WindowFault {
    pub fn number(self) -> u8
        ensures { result ≡ number self }
    {
        self as u8
    }
}
