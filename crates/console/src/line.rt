// The line that is being read: as much of it as decides its answer, however long it is.
ghost use Rattle.std.specs.Prelude.{◌≤◌};

// A line that is longer than any form has none, and one byte more than the longest shows that.
const ROOM: usize = 81;

// Bytes with their number, and no ArrayVec: a line is copied like a number, and another one begins without a byte being written.
#[derive(Clone, Copy)]
pub struct Line {
    bytes: [u8; 81],
    count: usize,
    ghost within: { count ≤ 81 },
}

impl Line {
    ghost use Rattle.std.specs.Prelude.{◌≡◌, ℕ, List, [], ◌∷◌, ◌++◌};
    ghost use Rattle.console.specs.Lines.{held, Keeps};

    pub fn new() -> Line
        ensures { Keeps result [] }
    {
        let bytes = [0; 81];
        Line { bytes, count: 0 }
    }

    // The line goes on; what does not fit does not matter any more and is let go.
    pub fn push(&mut self, byte: u8)
        ensures { (whole : List ℕ) → Keeps self.old whole → Keeps self.new (whole ++ byte ∷ []) }
    {
        if self.count < ROOM {
            self.bytes[self.count] = byte;
            self.count += 1;
        }
    }

    // Another line begins.
    pub fn clear(&mut self)
        ensures { Keeps self.new [] }
    {
        self.count = 0;
    }

    pub fn bytes(&self) -> &[u8]
        ensures { result.now ≡ held self.now }
    {
        &self.bytes[0..self.count]
    }
}
