// What is asked of both sides, and what the reference and the machine answer.
use crate::reference::{Exact, INFINITE, INVALID, Outcome, Place, SIGN, ZERO_DIVIDE, scaled};
use crate::replies::Replies;
use crate::wide::Wide;
use rounding::rules::AnyRule;
use std::num::{f32_from_bits_with_nan, f32_to_bits_with_nan};
use window::average::Average;

const QUIET: u32 = 0x7fc0_0000;

// The operands are encodings; means are of the replies that stand.
#[derive(Clone, Copy)]
pub enum Question {
    Quotient(u32, u32),
    Square(u32),
    Average(Average),
}

// A value in its place, to be rounded under each rule, or one answer for all.
#[derive(Clone, Copy)]
pub enum Expected {
    Value(Exact, Place),
    Fixed(Outcome),
}

impl Expected {
    pub fn under(&self, rule: AnyRule) -> Outcome {
        match self {
            Expected::Value(_, place) => place.chosen(rule),
            Expected::Fixed(outcome) => *outcome,
        }
    }
}

impl From<Exact> for Expected {
    fn from(exact: Exact) -> Expected {
        Expected::Value(exact, exact.placed())
    }
}

fn fixed(bits: u32, flags: u8) -> Expected {
    Expected::Fixed(Outcome { bits, flags })
}

// The quotient, where an operand is an infinity or a NaN, or the divisor is zero.
fn special_quotient(above: u32, below: u32, sign: u32) -> Expected {
    if above > INFINITE || below > INFINITE {
        fixed(QUIET, 0)
    } else if above == below {
        fixed(QUIET, INVALID)
    } else if above == INFINITE {
        fixed(sign | INFINITE, 0)
    } else if below == INFINITE {
        fixed(sign, 0)
    } else {
        fixed(sign | INFINITE, ZERO_DIVIDE)
    }
}

fn quotient(dividend: u32, divisor: u32) -> Expected {
    let sign = (dividend ^ divisor) & SIGN;
    let above = dividend % SIGN;
    let below = divisor % SIGN;
    if above >= INFINITE || below >= INFINITE || below == 0 {
        return special_quotient(above, below, sign);
    }
    let one = Wide::from(1);
    Expected::from(Exact {
        negative: sign != 0,
        above: scaled(&one, above).doubled(149),
        below: scaled(&one, below),
    })
}

fn square(operand: u32) -> Expected {
    let size = operand % SIGN;
    if size >= INFINITE {
        return fixed(if size == INFINITE { INFINITE } else { QUIET }, 0);
    }
    let one = Wide::from(1);
    Expected::from(Exact {
        negative: false,
        above: scaled(&scaled(&one, size), size),
        below: one.doubled(149),
    })
}

pub fn due(question: Question, replies: &Replies) -> Expected {
    match question {
        Question::Quotient(dividend, divisor) => quotient(dividend, divisor),
        Question::Square(operand) => square(operand),
        Question::Average(Average::Mean) => Expected::from(replies.mean()),
        Question::Average(Average::MeanSquare) => Expected::from(replies.mean_square()),
    }
}

// By the machine's own binary32, which rounds to even; it has no means.
pub fn by_machine(question: Question) -> Option<u32> {
    match question {
        Question::Quotient(dividend, divisor) => {
            let quotient = f32_from_bits_with_nan(dividend) / f32_from_bits_with_nan(divisor);
            Some(f32_to_bits_with_nan(quotient))
        }
        Question::Square(operand) => {
            let number = f32_from_bits_with_nan(operand);
            Some(f32_to_bits_with_nan(number * number))
        }
        Question::Average(_) => None,
    }
}
