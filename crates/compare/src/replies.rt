// The standing replies as a plain list, with sums worked out anew each time.
use crate::reference::{Exact, SIGN, scaled};
use crate::wide::Wide;

const ROOM: usize = 288;

// Numbers with their count, and no ArrayVec: a list is copied like a number.
#[derive(Clone, Copy)]
pub struct Replies {
    list: [u32; 288],
    count: usize,
}

// The sums of the replies of either sign, and of all squares.
#[derive(Clone, Copy, Default)]
struct Sums {
    positive: Wide,
    negative: Wide,
    squares: Wide,
}

impl Sums {
    fn add(&mut self, bits: u32) {
        let size = bits % SIGN;
        let worth = scaled(&Wide::from(1), size);
        if bits < SIGN {
            self.positive = self.positive.plus(&worth);
        } else {
            self.negative = self.negative.plus(&worth);
        }
        self.squares = self.squares.plus(&scaled(&worth, size));
    }
}

impl Replies {
    pub fn new() -> Replies {
        let list = [0; 288];
        Replies { list, count: 0 }
    }

    // Where there is room.
    pub fn push(&mut self, bits: u32) {
        if self.count < ROOM {
            self.list[self.count] = bits;
            self.count += 1;
        }
    }

    pub fn drop_first(&mut self) {
        for i in 1..ROOM {
            self.list[i - 1] = self.list[i];
        }
        self.count = self.count.saturating_sub(1);
    }

    pub fn drop_last(&mut self) {
        self.count = self.count.saturating_sub(1);
    }

    fn sums(&self) -> Sums {
        let mut sums = Sums::default();
        for bits in self.list.iter().take(self.count) {
            sums.add(*bits);
        }
        sums
    }

    // How many there are.
    fn number(&self) -> Wide {
        Wide::from(self.count.min(ROOM) as u32)
    }

    pub fn mean(&self) -> Exact {
        let sums = self.sums();
        let negative = sums.positive < sums.negative;
        let above = if negative {
            sums.negative.minus(&sums.positive)
        } else {
            sums.positive.minus(&sums.negative)
        };
        Exact {
            negative,
            above,
            below: self.number(),
        }
    }

    pub fn mean_square(&self) -> Exact {
        Exact {
            negative: false,
            above: self.sums().squares,
            below: self.number().doubled(149),
        }
    }
}
