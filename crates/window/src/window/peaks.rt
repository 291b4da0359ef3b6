// The greatest standing reply, by one walk over the ring.
ghost use Rattle.std.specs.Prelude.{◌≡◌, length, MatchResult};
ghost use Rattle.window.specs.Window.{standing};
ghost use Rattle.window.specs.Peak.{Peaks};

use super::Window;
use crate::fault::WindowFault;
use crate::order::exceeds;
use crate::peak::Peak;

impl Window {
    // The greatest standing reply by value, the oldest among equals, and its place.
    pub fn peak(&self) -> Result<Peak, WindowFault>
        ensures { MatchResult result (λ peak. Peaks (standing self.now) peak) (λ fault. (length (standing self.now) ≡ 0) × (fault ≡ WindowFault.Empty)) }
    {
        let mut encoding = self.ring.get(0).ok_or(WindowFault::Empty)?;
        let mut place = 1;
        // A rule of the project: the peak comes from a loop over the stored replies with their index.
        for i in 1..self.ring.count() {
            let reply = self.ring.at(i);
            if exceeds(reply, encoding) {
                place = i + 1;
                encoding = reply;
            }
        }
        Ok(Peak { place, encoding })
    }
}
