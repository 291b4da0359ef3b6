// What was found, counted by what the right answer is like.
use crate::questions::Expected;
use crate::reference::{INEXACT, OVERFLOW, Outcome, SIGN, UNDERFLOW, rounded_twice};
use std::cmp::Ordering;

#[derive(Clone, Copy, Default)]
pub struct Tally {
    pub questions: u32,
    // Without an exact value.
    pub special: u32,
    pub ties: u32,
    // By their flags under `even`.
    pub inexact: u32,
    pub tiny: u32,
    pub overflowed: u32,
    // Those that rounding to 24 bits first would get wrong.
    pub twice: u32,
    // Inexact only for digits that were cut off before the division.
    pub cut: u32,
    // Estimates whose 64th part is above the quotient, over all engines.
    pub overshot: u32,
    // Answers that are not the reference's, over all engines and rules, and not the machine's.
    pub differences: u32,
    pub machine: u32,
}

// One more, where it holds.
pub fn more(count: u32, holds: bool) -> u32 {
    if holds {
        count.saturating_add(1)
    } else {
        count
    }
}

impl Tally {
    pub fn count(&mut self, expected: &Expected, even: Outcome) {
        let tiny = even.flags & UNDERFLOW != 0;
        self.questions = more(self.questions, true);
        self.inexact = more(self.inexact, even.flags & INEXACT != 0);
        self.tiny = more(self.tiny, tiny);
        self.overflowed = more(self.overflowed, even.flags & OVERFLOW != 0);
        match expected {
            Expected::Value(exact, place) => {
                self.ties = more(self.ties, place.middle == Ordering::Equal);
                if tiny {
                    self.twice = more(self.twice, rounded_twice(exact) != even.bits % SIGN);
                }
            }
            Expected::Fixed(_) => self.special = more(self.special, true),
        }
    }
}
