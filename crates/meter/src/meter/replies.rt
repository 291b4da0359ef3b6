// A meter's standing replies: taken away from either end, counted, read, and the greatest of them.
ghost use Rattle.std.specs.Prelude.{◌≡◌, ℕ, ◌+◌, ◌<◌, ◌≤◌, length, slice_index_or, IfSome, Some, None, MatchResult};
ghost use Rattle.std.specs.List.{slice_get};
ghost use Rattle.window.specs.Peak.{Peaks};
ghost use Rattle.window.specs.Replies.{Finite};
ghost use Rattle.window.specs.Ring.{blank};
ghost use Rattle.window.specs.Window.{newest_of};
ghost use Rattle.meter.specs.Meters.{with_model};
ghost use Rattle.meter.specs.Model.{refuses_empty, unless, retired, retracted};

use super::Meter;
use crate::address::Address;
use crate::fault::MeterFault;
use rounding::encoding::Encoding;
use window::peak::Peak;

impl<E, R> Meter<E, R> {
    // The oldest reply goes; answers how many still stand.
    pub fn retire(&mut self) -> Result<usize, MeterFault>
        ensures result { MatchResult result (λ n. (refuses_empty self.old.model ≡ None) × (n + 1 ≡ length self.old.model.replies) × (n < 288)) (λ fault. refuses_empty self.old.model ≡ Some fault) }
        ensures after { self.new ≡ with_model self.old (unless (refuses_empty self.old.model) (retired self.old.model) self.old.model) }
    {
        Ok(self.window.retire()?)
    }

    // The newest reply goes; answers how many still stand.
    pub fn retract(&mut self) -> Result<usize, MeterFault>
        ensures result { MatchResult result (λ n. (refuses_empty self.old.model ≡ None) × (n + 1 ≡ length self.old.model.replies) × (n < 288)) (λ fault. refuses_empty self.old.model ≡ Some fault) }
        ensures after { self.new ≡ with_model self.old (unless (refuses_empty self.old.model) (retracted self.old.model) self.old.model) }
    {
        Ok(self.window.retract()?)
    }

    // The greatest standing reply by value and its place, counted from 1 at the oldest; the oldest among equals.
    pub fn peak(&self) -> Result<Peak, MeterFault>
        ensures { MatchResult result (λ peak. (refuses_empty self.now.model ≡ None) × Peaks self.now.model.replies peak × (peak.place ≤ 288) × Finite peak.encoding) (λ fault. refuses_empty self.now.model ≡ Some fault) }
    {
        Ok(self.window.peak()?)
    }

    pub fn newest(&self) -> Option<Encoding>
        ensures is { result ≡ newest_of self.now.model.replies }
        ensures finite { IfSome result Finite }
    {
        self.window.newest()
    }

    // The i-th standing reply, counted from 0 at the oldest.
    pub fn reply_at(&self, i: usize) -> Option<Encoding>
        ensures is { result ≡ slice_get self.now.model.replies i }
        ensures finite { IfSome result Finite }
    {
        self.window.get(i)
    }

    // How many replies stand. All of them are finite.
    pub fn standing(&self) -> usize
        ensures is { result ≡ length self.now.model.replies }
        ensures few { result ≤ 288 }
        ensures finite { (k : ℕ) → Finite (slice_index_or self.now.model.replies k blank) }
    {
        self.window.count()
    }

    pub fn address(&self) -> Address
        ensures { result.number ≡ self.now.model.address }
    {
        self.address
    }
}
