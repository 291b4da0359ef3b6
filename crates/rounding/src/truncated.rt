// A positive value known by its leading bits: a whole quotient, its scale, and whether bits below it were cut off.
ghost use Rattle.std.specs.Prelude.{◌≡◌, ◌^◌, ◌<◌, ◌≤◌, MatchOption};

// The value is quotient * 2^(scale - 256) units of the smallest subnormal, and somewhat more where cut. With 25 bits or more in the
// quotient, what was cut off lies below the last place and its half.
#[derive(Clone, Copy)]
pub struct Truncated {
    quotient: u64,
    scale: u16,
    cut: bool,
    ghost long: { 16777216 ≤ quotient },
}

impl Truncated {
    // Refused where the quotient has fewer than 25 bits, by `None`: there is one thing to refuse, and three values make one.
    pub fn new(quotient: u64, scale: u16, cut: bool) -> Option<Truncated>
        ensures { MatchOption result (quotient < 16777216) (λ t. (t.quotient ≡ quotient) × (t.scale ≡ scale) × (t.cut ≡ cut)) }
    {
        if quotient < 0x0100_0000 {
            return None;
        }
        Some(Truncated {
            quotient,
            scale,
            cut,
        })
    }

    pub fn quotient(self) -> u64
        ensures value { result ≡ self.quotient }
        ensures bound { 16777216 ≤ result }
    {
        self.quotient
    }

    pub fn scale(self) -> u16
        ensures { result ≡ self.scale }
    {
        self.scale
    }

    pub fn cut(self) -> bool
        ensures { result ≡ self.cut }
    {
        self.cut
    }
}
