// How a window changes: the next one is worked out by value and written whole, so that a refusal leaves it as it was.
ghost use Rattle.std.specs.Prelude.{◌≡◌, ◌+◌, ◌-◌, ◌<◌, [], length, take, drop, MatchResult};
ghost use Rattle.window.specs.Window.{standing, taken_in};

use super::Window;
use crate::fault::WindowFault;
use crate::reading::Reading;
use crate::ring::Ring;
use crate::words::Words;

impl Window {
    // Nothing stands.
    pub fn new() -> Window
        ensures { standing result ≡ [] }
    {
        Window {
            ring: Ring::new(),
            words: Words::new(),
        }
    }

    // The reading stands as the newest reply. Answers how many stand then.
    pub fn take_in(&mut self, reading: Reading) -> Result<usize, WindowFault>
        ensures result { MatchResult result (λ n. (length (standing self.old) < 288) × (n ≡ length (standing self.old) + 1)) (λ fault. (length (standing self.old) ≡ 288) × (fault ≡ WindowFault.Full)) }
        ensures stands { standing self.new ≡ taken_in (standing self.old) reading.encoding }
    {
        let reply = reading.encoding();
        let ring = self.ring.with_newest(reply).ok_or(WindowFault::Full)?;
        let words = self.words.with(reply);
        *self = Window { ring, words };
        Ok(ring.count())
    }

    // The oldest reply goes. Answers how many still stand. That retiring and retracting are methods of their own, here and at the meter, is a
    // rule of the project; what they share lies in the ring and the words.
    pub fn retire(&mut self) -> Result<usize, WindowFault>
        ensures result { MatchResult result (λ n. (n + 1 ≡ length (standing self.old)) × (n < 288)) (λ fault. (length (standing self.old) ≡ 0) × (fault ≡ WindowFault.Empty)) }
        ensures stands { standing self.new ≡ drop 1 (standing self.old) }
    {
        let (gone, ring) = self.ring.without_oldest().ok_or(WindowFault::Empty)?;
        let words = self.words.without(gone);
        *self = Window { ring, words };
        Ok(ring.count())
    }

    // The newest reply goes. Answers how many still stand.
    pub fn retract(&mut self) -> Result<usize, WindowFault>
        ensures result { MatchResult result (λ n. (n + 1 ≡ length (standing self.old)) × (n < 288)) (λ fault. (length (standing self.old) ≡ 0) × (fault ≡ WindowFault.Empty)) }
        ensures stands { standing self.new ≡ take (length (standing self.old) - 1) (standing self.old) }
    {
        let (gone, ring) = self.ring.without_newest().ok_or(WindowFault::Empty)?;
        let words = self.words.without(gone);
        *self = Window { ring, words };
        Ok(ring.count())
    }
}
