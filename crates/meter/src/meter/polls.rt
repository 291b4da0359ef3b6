// A meter's polls: begun, repeated, and ended by a reply or a lapse.
ghost use Rattle.std.specs.Prelude.{◌≡◌, ◌+◌, ◌≤◌, length, Some, None, IfOk, MatchResult};
ghost use Rattle.meter.specs.Meters.{with_model};
ghost use Rattle.meter.specs.Model.{fresh, refuses_poll, refuses_ended, refuses_repeat, refuses_reply, refuses_lapse, unless, polled, replied, lapsed};

use super::Meter;
use crate::address::Address;
use crate::fault::MeterFault;
use crate::token::{PendingPoll, Refused};
use rounding::encoding::Encoding;
use window::reading::Reading;
use window::window::Window;

impl<E, R> Meter<E, R> {
    // Nothing stands and no poll is pending.
    pub fn new(address: Address, engine: E, rule: R) -> Meter<E, R>
        ensures { result ≡ record { model = fresh address.number; engine = engine; rule = rule } }
    {
        Meter {
            address,
            pending: false,
            engine,
            rule,
            window: Window::new(),
        }
    }

    // Begins a poll, at its first attempt.
    pub fn poll(&mut self) -> Result<PendingPoll, MeterFault>
        ensures result { MatchResult result (λ p. (refuses_poll self.old.model ≡ None) × (p.address ≡ self.old.model.address) × (p.attempt ≡ 1)) (λ fault. refuses_poll self.old.model ≡ Some fault) }
        ensures ranged { IfOk result (λ p. (1 ≤ p.address) × (p.address ≤ 247)) }
        ensures after { self.new ≡ with_model self.old (unless (refuses_poll self.old.model) (polled self.old.model) self.old.model) }
    {
        if self.pending {
            return Err(MeterFault::StillPending);
        }
        self.pending = true;
        Ok(PendingPoll::new(self.address.number(), 1))
    }

    pub fn is_pending(&self) -> bool
        ensures { result ≡ self.now.model.pending }
    {
        self.pending
    }

    // Whether this poll may go on here.
    fn expects(&self, poll: &PendingPoll) -> Result<(), MeterFault>
        ensures ranged { IfOk result (λ _. (1 ≤ poll.now.address) × (poll.now.address ≤ 247)) }
        ensures result { MatchResult result (λ _. refuses_ended self.now.model poll.now.address None ≡ None) (λ fault. refuses_ended self.now.model poll.now.address None ≡ Some fault) }
    {
        if !self.pending {
            return Err(MeterFault::NonePending);
        }
        if poll.address() != self.address.number() {
            return Err(MeterFault::OtherAddress);
        }
        Ok(())
    }

    // The poll at the attempt after this one.
    fn next_attempt(&self, poll: &PendingPoll) -> Result<PendingPoll, MeterFault>
        ensures ranged { IfOk result (λ p. (1 ≤ p.address) × (p.address ≤ 247)) }
        ensures result { MatchResult result (λ p. (refuses_repeat self.now.model poll.now.address poll.now.attempt ≡ None) × (p.address ≡ poll.now.address) × (p.attempt ≡ poll.now.attempt + 1)) (λ fault. refuses_repeat self.now.model poll.now.address poll.now.attempt ≡ Some fault) }
    {
        self.expects(poll)?;
        let attempt = poll.attempt();
        if attempt >= 3 {
            return Err(MeterFault::LastAttempt);
        }
        Ok(PendingPoll::new(poll.address(), attempt + 1))
    }

    // The same question once more; a refused poll is handed back as it was.
    pub fn repeat(&mut self, poll: PendingPoll) -> Result<PendingPoll, Refused>
        ensures result { MatchResult result (λ p. (refuses_repeat self.old.model poll.address poll.attempt ≡ None) × (p.address ≡ poll.address) × (p.attempt ≡ poll.attempt + 1)) (λ back. (refuses_repeat self.old.model poll.address poll.attempt ≡ Some back.fault) × (back.poll.address ≡ poll.address) × (back.poll.attempt ≡ poll.attempt)) }
        ensures ranged { IfOk result (λ p. (1 ≤ p.address) × (p.address ≤ 247)) }
        ensures after { self.new ≡ self.old }
    {
        let next = self.next_attempt(&poll);
        poll.settle(next)
    }

    // The encoding stands as the newest reply and the poll is over; answers how many stand.
    fn take_reply(&mut self, poll: &PendingPoll, reply: Encoding) -> Result<usize, MeterFault>
        ensures result { MatchResult result (λ n. (refuses_reply self.old.model poll.now.address reply ≡ None) × (n ≡ length self.old.model.replies + 1)) (λ fault. refuses_reply self.old.model poll.now.address reply ≡ Some fault) }
        ensures after { self.new ≡ with_model self.old (unless (refuses_reply self.old.model poll.now.address reply) (replied self.old.model reply) self.old.model) }
    {
        self.expects(poll)?;
        let reading = Reading::new(reply).ok_or(MeterFault::NotFinite)?;
        let standing = self.window.take_in(reading)?;
        self.pending = false;
        Ok(standing)
    }

    // Ends the poll with a finite reply, which then stands as the newest; a refused poll is handed back as it was.
    pub fn reply(&mut self, poll: PendingPoll, reply: Encoding) -> Result<usize, Refused>
        ensures result { MatchResult result (λ n. (refuses_reply self.old.model poll.address reply ≡ None) × (n ≡ length self.old.model.replies + 1)) (λ back. (refuses_reply self.old.model poll.address reply ≡ Some back.fault) × (back.poll.address ≡ poll.address) × (back.poll.attempt ≡ poll.attempt)) }
        ensures after { self.new ≡ with_model self.old (unless (refuses_reply self.old.model poll.address reply) (replied self.old.model reply) self.old.model) }
    {
        let taken = self.take_reply(&poll, reply);
        poll.settle(taken)
    }

    // Ends the poll without a reply. A poll that this meter does not wait for is ended too, and the meter stays as it was.
    pub fn lapse(&mut self, poll: PendingPoll) -> Result<(), MeterFault>
        ensures result { MatchResult result (λ _. refuses_lapse self.old.model poll.address ≡ None) (λ fault. refuses_lapse self.old.model poll.address ≡ Some fault) }
        ensures after { self.new ≡ with_model self.old (unless (refuses_lapse self.old.model poll.address) (lapsed self.old.model) self.old.model) }
    {
        let expected = self.expects(&poll);
        poll.spend();
        expected?;
        self.pending = false;
        Ok(())
    }
}
