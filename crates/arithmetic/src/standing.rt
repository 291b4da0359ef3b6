// The record of standing flags, and the trial that hands it back as it was.
ghost use Rattle.std.specs.Prelude.{◌≡◌, bit_or};

use rounding::flags::Flags;

// The flags that answers raised since the record was made or cleared.
#[derive(Clone, Copy)]
pub struct StandingFlags {
    raised: Flags,
}

impl StandingFlags {
    pub fn new() -> StandingFlags
        ensures { result.raised.number ≡ 0 }
    {
        StandingFlags {
            raised: Flags::none(),
        }
    }

    pub fn raised(&self) -> Flags
        ensures { result ≡ self.now.raised }
    {
        self.raised
    }

    // Gathers the flags of one more answer.
    pub fn raise(&mut self, flags: Flags)
        ensures { self.new.raised.number ≡ bit_or self.old.raised.number flags.number }
    {
        self.raised = self.raised.union(flags);
    }

    pub fn clear(&mut self)
        ensures { self.new.raised.number ≡ 0 }
    {
        self.raised = Flags::none();
    }
}

// A trial takes the record over, from 0; when it is dropped, on every way out, the record is as it was before.
pub struct Trial<'a> {
    pub standing: &'a mut StandingFlags,
    saved: Flags,
}

impl<'a> Trial<'a> {
    pub fn begin(standing: &'a mut StandingFlags) -> Trial<'a>
        ensures lender { result.standing.ghost_name ≡ standing.entry.ghost_name }
        ensures saved { result.saved ≡ standing.old.raised }
        ensures fresh { result.standing.now.raised.number ≡ 0 }
    {
        let saved = standing.raised;
        standing.clear();
        Trial { standing, saved }
    }
}

impl Drop for Trial<'_> {
    fn drop(self)
        ensures { self.exit.0.now.raised ≡ self.entry.saved }
    {
        self.standing.raised = self.saved;
        let Trial {
            standing: _,
            saved: _,
        } = self;
    }
}
