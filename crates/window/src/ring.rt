// The standing replies in a ring of fixed room: the oldest at `start`, the others after it, past the end on from the beginning.
ghost use Rattle.std.specs.Prelude.{◌≡◌, ◌+◌, ◌%◌, ◌<◌, ◌≤◌};

use rounding::encoding::Encoding;

pub const ROOM: usize = 288;

// A plain struct of fixed room, without a heap: a rule of the project.
#[derive(Clone, Copy)]
pub struct Ring {
    cells: [Encoding; 288],
    start: usize,
    count: usize,
    ghost starts: { start < 288 },
    ghost few: { count ≤ 288 },
}

impl Ring {
    ghost use Rattle.std.specs.Prelude.{[], ◌∷◌, ◌++◌, length, MatchOption, slice_index_or};
    ghost use Rattle.std.specs.List.{slice_get};
    ghost use Rattle.window.specs.Ring.{standing_in, blank};

    pub fn new() -> Ring
        ensures { standing_in result ≡ [] }
    {
        Ring {
            cells: [Encoding::from_bits(0); 288],
            start: 0,
            count: 0,
        }
    }

    pub fn count(&self) -> usize
        ensures is { result ≡ self.now.count }
        ensures stands { result ≡ length (standing_in self.now) }
    {
        self.count
    }

    // The cell of the i-th reply, counted from 0 at the oldest, or of the next one to come.
    fn cell(&self, i: usize) -> usize
        requires { i < 289 }
        ensures { result ≡ (self.now.start + i) % 288 }
    {
        (self.start + i) % ROOM
    }

    pub fn at(&self, i: usize) -> Encoding
        requires { i < self.now.count }
        ensures { result ≡ slice_index_or (standing_in self.now) i blank }
    {
        self.cells[self.cell(i)]
    }

    pub fn get(&self, i: usize) -> Option<Encoding>
        ensures { result ≡ slice_get (standing_in self.now) i }
    {
        if i < self.count {
            Some(self.at(i))
        } else {
            None
        }
    }

    // None where there is no room.
    pub fn with_newest(self, reply: Encoding) -> Option<Ring>
        ensures { MatchOption result (length (standing_in self) ≡ 288) (λ ring. (length (standing_in self) < 288) × (standing_in ring ≡ standing_in self ++ reply ∷ [])) }
    {
        if self.count == ROOM {
            return None;
        }
        let mut cells = self.cells;
        cells[self.cell(self.count)] = reply;
        Some(Ring {
            cells,
            start: self.start,
            count: self.count + 1,
        })
    }

    // The oldest reply, and the ring without it.
    pub fn without_oldest(self) -> Option<(Encoding, Ring)>
        ensures { MatchOption result (standing_in self ≡ []) (λ p. standing_in self ≡ p.0 ∷ standing_in p.1) }
    {
        let oldest = self.get(0)?;
        let cells = self.cells;
        let ring = Ring {
            cells,
            start: self.cell(1),
            count: self.count - 1,
        };
        Some((oldest, ring))
    }

    // The newest reply, and the ring without it.
    pub fn without_newest(self) -> Option<(Encoding, Ring)>
        ensures { MatchOption result (standing_in self ≡ []) (λ p. standing_in self ≡ standing_in p.1 ++ p.0 ∷ []) }
    {
        let count = self.count.checked_sub(1)?;
        let cells = self.cells;
        let ring = Ring {
            cells,
            start: self.start,
            count,
        };
        Some((self.at(count), ring))
    }
}
