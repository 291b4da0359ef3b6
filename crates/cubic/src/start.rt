// The first reciprocal: one of two cubic polynomials of the divisor's leading bits, right to 9 bits.
ghost use Rattle.std.specs.Prelude.{◌≡◌, ◌≤◌};
ghost use Rattle.cubic.specs.Polynomial.{Value, Valued};
ghost use Rattle.cubic.specs.Reciprocal.{Start};

use engines::Question;

// A question with a reciprocal of its divisor that is right to `bits` bits, 3 or more.
#[derive(Clone, Copy)]
pub(crate) struct Started {
    pub(crate) question: Question,
    pub(crate) reciprocal: u32,
    pub(crate) bits: u32,
    ghost some: { 3 ≤ bits },
    ghost near: { Start bits question.divisor reciprocal },
}

impl Started {
    // By `new` and not by From, since a reciprocal is added to the question.
    pub(crate) fn new(question: Question) -> Started
        ensures question { result.question ≡ question }
        ensures right { result.bits ≡ 9 }
    {
        Started {
            question,
            reciprocal: first(question),
            bits: 9,
        }
    }
}

// A cubic polynomial with a positive constant and signs that alternate, each coefficient 2^24 times what it stands for.
#[derive(Clone, Copy)]
struct Polynomial {
    cubed: u64,
    squared: u64,
    once: u64,
    constant: u64,
}

// (2.1661051 - 0.4354185 d) d^2 - 4.0136915 d + 3.2828333
const LOWER: Polynomial = Polynomial {
    cubed: 7305110,
    squared: 36341213,
    once: 67338569,
    constant: 55076803,
};

// (0.7678062 - 0.1099684 d) d^2 - 2.0034469 d + 2.3153857
const UPPER: Polynomial = Polynomial {
    cubed: 1844964,
    squared: 12881650,
    once: 33612261,
    constant: 38845726,
};

// The divisor d is taken from 1 to 2 here, and cut to 10 bits after the point; from 3/2 on it is the upper one's.
fn first(question: Question) -> u32
    ensures { Start 9 question.divisor result }
{
    let leading = (question.divisor() >> 13) as u64;
    if leading < 1536 {
        LOWER.at(leading)
    } else {
        UPPER.at(leading)
    }
}

impl Polynomial {
    // Its value at x / 2^10. Nothing is cut before the end, where its scale comes down from 2^54 to 2^24.
    fn at(self, x: u64) -> u32
        requires { Valued self.cubed self.squared self.once self.constant x }
        ensures { Value self.cubed self.squared self.once self.constant x result }
    {
        let high = (self.squared * 1024 - self.cubed * x) * x * x;
        ((high + self.constant * 1073741824 - self.once * x * 1048576) >> 30) as u32
    }
}
