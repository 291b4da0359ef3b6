// Questions to engines, from a fixed generator that leans to the edges.
ghost use Rattle.std.specs.Prelude.{◌*◌, ◌^◌, ◌<◌, ◌≤◌};

use engines::Question;

#[derive(Drop)]
pub struct Random {
    state: u64,
}

impl Random {
    pub fn new() -> Random {
        Random { state: 20240229 }
    }

    // A linear congruential generator, of which the upper bits serve.
    fn next(&mut self) -> u32
        ensures { result < 2 ^ 31 }
    {
        self.state = self
            .state
            .wrapping_mul(6364136223846793005)
            .wrapping_add(1442695040888963407);
        (self.state >> 33) as u32
    }

    pub fn question(&mut self) -> Question {
        let divisor = self.divisor();
        let dividend = divisor as u64 * 16777216 + self.excess(divisor);
        Question::new(divisor, dividend).unwrap()
    }

    // Near the least divisor, near the greatest, near a place where an engine changes its way, or anywhere.
    fn divisor(&mut self) -> u32
        ensures { (2 ^ 23 ≤ result) × (result < 2 ^ 24) }
    {
        let near = self.next() % 8;
        let sixteenth = self.next() % 8;
        match self.next() % 4 {
            0 => 8388608 + near,
            1 => 16777215 - near,
            2 => 8388608 + sixteenth * 1048576 + near,
            _ => 8388608 + self.next() % 8388608,
        }
    }

    // What the dividend has above its least value: little, nearly all, about a multiple of the divisor, or anything.
    #[tactic(auto, using(std::proofs::lemmas::Nat::rows))]
    fn excess(&mut self, divisor: u32) -> u64
        requires { 2 ^ 23 ≤ divisor }
        ensures { result < 16777216 * divisor }
    {
        let wide = divisor as u64;
        let near = (self.next() % 4) as u64;
        let times = (self.next() % 16777216) as u64;
        match self.next() % 5 {
            0 => near,
            1 => wide * 16777215 + (wide - 1 - near),
            2 => wide * times + near,
            3 => wide * times + (wide - 1 - near),
            _ => wide * times + (self.next() % 8388608) as u64,
        }
    }
}
