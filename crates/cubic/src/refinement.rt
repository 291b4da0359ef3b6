// From any first reciprocal of stated accuracy to an estimate in the band.
ghost use Rattle.std.specs.Prelude.{◌≡◌, ◌+◌, ◌*◌, ◌^◌, ◌<◌, ◌≤◌};
ghost use Rattle.engines.specs.Band.{Band};
ghost use Rattle.cubic.specs.Reciprocal.{gap, allowed};

use crate::start::Started;
use engines::Question;

impl Started {
    // The refined reciprocal is off by less than 10 parts in 2^31 either way, which is 10 in the estimate, and cutting takes less
    // than 1.
    pub(crate) fn estimated(self) -> u32
        ensures { Band self.question.divisor self.question.dividend result }
    {
        product(self.question, self.refined()) + 11
    }

    // The reciprocal at a scale of 2^55, as near as the estimate needs it.
    fn refined(self) -> u64
        ensures { gap (result * self.question.divisor) (2 ^ 55) ≤ allowed 0 }
    {
        let divisor = self.question.divisor();
        let needed = steps(self.bits);
        let mut found = self.reciprocal as u64 * 256;
        for _done in 0u32..needed {
            found = step(divisor, found);
        }
        found
    }
}

// 64 times the quotient, 11 too small at most and 10 too large.
fn product(question: Question, reciprocal: u64) -> u32
    requires { gap (reciprocal * question.divisor) (2 ^ 55) ≤ allowed 0 }
    ensures above { 64 * question.dividend < (result + 11) * question.divisor }
    ensures below { result * question.divisor ≤ 64 * question.dividend + 10 * question.divisor }
    ensures short { result < 2 ^ 31 + 10 }
{
    ((question.dividend() as u128 * reciprocal as u128) >> 49) as u32
}

// How many steps a start of so many bits needs: each doubles them.
fn steps(bits: u32) -> u32
    requires { 3 ≤ bits }
    ensures { 2 ^ 55 ≤ 2 ^ bits * allowed result }
{
    if bits < 4 {
        4
    } else if bits < 7 {
        3
    } else {
        2
    }
}

// One step of Newton's method: m (2 - m d), at a scale of 2^55. The error is squared, and cutting adds less than the divisor.
fn step(divisor: u32, found: u64) -> u64
    requires { (0 < divisor) × (found * divisor ≤ 2 ^ 56) }
    ensures { 2 ^ 55 * gap (result * divisor) (2 ^ 55) < 2 ^ 55 * divisor + gap (found * divisor) (2 ^ 55) * gap (found * divisor) (2 ^ 55) }
{
    let rest = 72057594037927936 - found * divisor as u64;
    ((found as u128 * rest as u128) >> 55) as u64
}
