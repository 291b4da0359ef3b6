// A pending poll: a token that only a meter makes, and that is let go only once it is spent.
ghost use Rattle.std.specs.Prelude.{◌≡◌, MatchResult};

use crate::fault::MeterFault;

// One question to an inverter. It has to end in a reply or a lapse: attempts count from 1, only a spent poll has 0, and none but a meter
// spends one. It is two plain numbers by a rule of the project: the meter that waits for it judges them.
pub struct PendingPoll {
    address: u8,
    attempt: u8,
}

impl Drop for PendingPoll {
    fn drop(self)
        requires { self.attempt ≡ 0 }
    {
        let PendingPoll {
            address: _,
            attempt: _,
        } = self;
    }
}

impl PendingPoll {
    pub(crate) fn new(address: u8, attempt: u8) -> PendingPoll
        ensures { (result.address ≡ address) × (result.attempt ≡ attempt) }
    {
        PendingPoll { address, attempt }
    }

    // The token's end.
    pub(crate) fn spend(mut self) {
        self.attempt = 0;
    }

    // Spent where the outcome is good, and handed back with the fault where it is not.
    pub(crate) fn settle<T>(self, outcome: Result<T, MeterFault>) -> Result<T, Refused>
        ensures { MatchResult result (λ x. outcome ≡ Ok x) (λ back. (outcome ≡ Err back.fault) × (back.poll.address ≡ self.address) × (back.poll.attempt ≡ self.attempt)) }
    {
        match outcome {
            Ok(x) => {
                self.spend();
                Ok(x)
            }
            Err(fault) => Err(Refused { poll: self, fault }),
        }
    }

    pub fn address(&self) -> u8
        ensures { result ≡ self.now.address }
    {
        self.address
    }

    pub fn attempt(&self) -> u8
        ensures { result ≡ self.now.attempt }
    {
        self.attempt
    }
}

// A poll that was not taken, with the reason.
pub struct Refused {
    pub poll: PendingPoll,
    pub fault: MeterFault,
}
