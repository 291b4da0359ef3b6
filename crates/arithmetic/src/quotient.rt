// The quotient of two encodings, over any engine and any rule.
ghost use Rattle.std.specs.Prelude.{◌≡◌, ℕ, ◌+◌, ◌*◌, ◌^◌, ◌<◌, ◌≤◌, true, false, if◌then◌else◌, MatchOption, bit_or, nat_le};
ghost use Rattle.engines.specs.Meaning.{counted};
ghost use Rattle.rounding.specs.Format.{binary32};
ghost use Rattle.rounding.specs.Rules.{Meaning, Lawful};
ghost use Rattle.arithmetic.specs.Defined.{asks, asked_divisor, asked_dividend, quotient, quotient_log, opposite, Gives};

use crate::class::Class;
use crate::operand::{Scaled, scale_up};
use crate::plain::silent;
use crate::standing::StandingFlags;
use engines::{Engine, Question, whole_quotient};
use rounding::encoding::Encoding;
use rounding::flags::Flags;
use rounding::round::{Answer, round};
use rounding::rule::Rule;
use rounding::truncated::Truncated;

// What an engine is asked, and the scale of its whole quotient.
#[derive(Clone, Copy)]
struct Ask {
    question: Question,
    scale: u16,
}

// The dividend gets 24 more bits, or 25 where it is the smaller, so that the quotient has 25.
fn extra_bits(over: Scaled, under: Scaled) -> u32
    ensures { result ≡ (if nat_le under.bits over.bits then 24 else 25) }
{
    if under.bits <= over.bits { 24 } else { 25 }
}

fn ask_for(over: Scaled, under: Scaled) -> Ask
    ensures divisor { result.question.divisor ≡ under.bits }
    ensures dividend { result.question.dividend ≡ over.bits * (if nat_le under.bits over.bits then 16777216 else 33554432) }
    ensures scale { result.scale + under.power + (if nat_le under.bits over.bits then 24 else 25) ≡ over.power + 405 }
{
    let extra = extra_bits(over, under);
    let dividend = (over.bits as u64) << extra;
    Ask {
        question: Question::new(under.bits, dividend).unwrap(),
        scale: (over.power + 405 - extra - under.power) as u16,
    }
}

// The operands of a quotient.
#[derive(Clone, Copy)]
struct Division {
    dividend: Encoding,
    divisor: Encoding,
}

impl Division {
    fn is_negative(self) -> bool
        ensures { result ≡ opposite binary32 self.dividend.bits self.divisor.bits }
    {
        self.dividend.is_negative() != self.divisor.is_negative()
    }

    // The answers that need no division: none where the quotient has an exact value other than zero.
    fn special(self) -> Option<Answer>
        ensures { MatchOption result (asks binary32 self.dividend.bits self.divisor.bits ≡ true) (λ a. (asks binary32 self.dividend.bits self.divisor.bits ≡ false) × ((m : Meaning) → Lawful m → Gives a (quotient binary32 m self.dividend.bits self.divisor.bits))) }
    {
        let negative = self.is_negative();
        match (Class::from(self.dividend), Class::from(self.divisor)) {
            (Class::Nan, _) | (_, Class::Nan) => Some(silent(Encoding::quiet_nan())),
            (Class::Zero, Class::Zero) | (Class::Infinity, Class::Infinity) => Some(Answer {
                encoding: Encoding::quiet_nan(),
                flags: Flags::invalid(),
            }),
            (Class::Infinity, _) => Some(silent(Encoding::infinity(negative))),
            (_, Class::Infinity) => Some(silent(Encoding::zero(negative))),
            (Class::Zero, Class::Number) => Some(silent(Encoding::zero(negative))),
            (Class::Number, Class::Zero) => Some(Answer {
                encoding: Encoding::infinity(negative),
                flags: Flags::zero_divide(),
            }),
            (Class::Number, Class::Number) => None,
        }
    }

    // A quotient that has an exact value other than zero: one estimate, and one rounding.
    fn rounded<E: Engine, R: Rule>(self, engine: &mut E, rule: &R) -> Answer
        requires { asks binary32 self.dividend.bits self.divisor.bits ≡ true }
        ensures answer { Gives result (quotient binary32 (R.meaning rule.now) self.dividend.bits self.divisor.bits) }
        ensures after { E.logged engine.new ≡ counted (E.logged engine.old) (asked_divisor binary32 self.divisor.bits) (asked_dividend binary32 self.dividend.bits self.divisor.bits) }
    {
        let Ask { question, scale } = ask_for(scale_up(self.dividend), scale_up(self.divisor));
        let (divisor, dividend) = (question.divisor(), question.dividend());
        let quotient = whole_quotient(engine, divisor, dividend) as u64;
        let cut = quotient * divisor as u64 != dividend;
        let value = Truncated::new(quotient, scale, cut).unwrap();
        round(rule, self.is_negative(), value)
    }

    // The quotient, before its flags are gathered. The contract is the defined answer itself, as it is in `quotient`.
    fn answer<E: Engine, R: Rule>(self, engine: &mut E, rule: &R) -> Answer
        ensures answer { Gives result (quotient binary32 (R.meaning rule.now) self.dividend.bits self.divisor.bits) }
        ensures asked { E.logged engine.new ≡ quotient_log binary32 (E.logged engine.old) self.dividend.bits self.divisor.bits }
    {
        match self.special() {
            Some(answer) => answer,
            None => self.rounded(engine, rule),
        }
    }
}

// The quotient under a rule; the flags that it raises are gathered too. Engine, rule and record are lent one by one: a struct of two borrows
// and a shared one would be made at each call and say no more. The two operands are a division's arguments, as every caller has them.
pub fn quotient<E: Engine, R: Rule>(
    engine: &mut E,
    rule: &R,
    standing: &mut StandingFlags,
    dividend: Encoding,
    divisor: Encoding,
) -> Answer
    ensures answer { Gives result (quotient binary32 (R.meaning rule.now) dividend.bits divisor.bits) }
    ensures gathered { standing.new.raised.number ≡ bit_or standing.old.raised.number result.flags.number }
    ensures asked { E.logged engine.new ≡ quotient_log binary32 (E.logged engine.old) dividend.bits divisor.bits }
{
    let answer = Division { dividend, divisor }.answer(engine, rule);
    standing.raise(answer.flags);
    answer
}
