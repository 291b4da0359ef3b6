// What an engine is asked.
ghost use Rattle.std.specs.Prelude.{◌≡◌, ◌*◌, ◌<◌, ◌≤◌, true, false, MatchOption};
ghost use Rattle.engines.specs.Band.{in_range};

// A divisor of exactly 24 bits, and a dividend whose quotient by it has exactly 25 before the point.
#[derive(Clone, Copy)]
pub struct Question {
    divisor: u32,
    dividend: u64,
    ghost normal: { (8388608 ≤ divisor) × (divisor < 16777216) },
    ghost band: { (16777216 * divisor ≤ dividend) × (dividend < 33554432 * divisor) },
}

impl Question {
    // None where the pair is out of range: two values make one, and there is one thing to refuse.
    pub fn new(divisor: u32, dividend: u64) -> Option<Question>
        ensures { MatchOption result (in_range divisor dividend ≡ false) (λ q. (in_range divisor dividend ≡ true) × (q.divisor ≡ divisor) × (q.dividend ≡ dividend)) }
    {
        if in_range(divisor, dividend) {
            Some(Question { divisor, dividend })
        } else {
            None
        }
    }

    pub fn divisor(self) -> u32
        ensures value { result ≡ self.divisor }
        ensures normal { (8388608 ≤ result) × (result < 16777216) }
    {
        self.divisor
    }

    pub fn dividend(self) -> u64
        ensures value { result ≡ self.dividend }
        ensures band { (16777216 * self.divisor ≤ result) × (result < 33554432 * self.divisor) }
    {
        self.dividend
    }
}

// A divisor of exactly 24 bits, and a quotient of exactly 25.
pub fn in_range(divisor: u32, dividend: u64) -> bool
    ensures { result ≡ in_range divisor dividend }
{
    let least = u64::from(divisor) * 16777216;
    (8388608..16777216).contains(&divisor) && (least..2 * least).contains(&dividend)
}
