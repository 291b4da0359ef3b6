// What can be read of a window: how many replies stand, and which.
ghost use Rattle.std.specs.Prelude.{◌≡◌, ◌≤◌, length};
ghost use Rattle.std.specs.List.{slice_get};
ghost use Rattle.window.specs.Window.{standing, newest_of};

use super::Window;
use rounding::encoding::Encoding;

impl Window {
    pub fn count(&self) -> usize
        ensures is { result ≡ length (standing self.now) }
        ensures few { result ≤ 288 }
    {
        self.ring.count()
    }

    // The i-th standing reply, counted from 0 at the oldest.
    pub fn get(&self, i: usize) -> Option<Encoding>
        ensures { result ≡ slice_get (standing self.now) i }
    {
        self.ring.get(i)
    }

    pub fn newest(&self) -> Option<Encoding>
        ensures { result ≡ newest_of (standing self.now) }
    {
        self.get(self.count().saturating_sub(1))
    }
}
