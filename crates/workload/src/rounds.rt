// Rounds of calls on one window, over the cubic engine and under ties to even.
use arithmetic::standing::StandingFlags;
use cubic::Cubic;
use means::average::average;
use rounding::encoding::Encoding;
use rounding::rules::Even;
use window::average::Average;
use window::reading::Reading;
use window::window::Window;

// The average that a word names; any other word names none.
pub fn named(word: &str) -> Option<Average> {
    match word {
        "means" => Some(Average::Mean),
        "mean-squares" => Some(Average::MeanSquare),
        _ => None,
    }
}

#[derive(Drop)]
pub struct Rounds {
    window: Window,
    engine: Cubic,
    flags: StandingFlags,
    checksum: u32,
}

// Readings from 1 to 16, of either sign.
fn reading(number: u32) -> Option<Reading> {
    let size = 0x3f80_0000 + (number % 4096) * 8191;
    Reading::new(Encoding::from_bits(size + (number % 2) * 0x8000_0000))
}

impl Rounds {
    pub fn new() -> Rounds {
        Rounds {
            window: Window::new(),
            engine: Cubic::new(),
            flags: StandingFlags::new(),
            checksum: 0,
        }
    }

    pub fn fill(&mut self, standing: u32) {
        for number in 0..standing {
            self.take_in(number);
        }
    }

    fn take_in(&mut self, number: u32) {
        if let Some(reading) = reading(number) {
            if let Ok(count) = self.window.take_in(reading) {
                self.checksum = self.checksum.wrapping_add(count as u32);
            }
        }
    }

    // The oldest reply goes and a new one comes; then the average, where there is one.
    pub fn turn(&mut self, asked: Option<Average>, round: u32) {
        let _ = self.window.retire();
        self.take_in(round);
        let Some(which) = asked else {
            return;
        };
        if let Ok(answer) = average(
            &self.window,
            which,
            &mut self.engine,
            &Even,
            &mut self.flags,
        ) {
            self.checksum = self.checksum.rotate_left(1) ^ answer.encoding.to_bits();
        }
    }

    pub fn checksum(&self) -> u32 {
        self.checksum
    }
}
