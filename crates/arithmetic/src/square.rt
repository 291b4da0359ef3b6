// The square of an encoding, under any rule. It asks no engine.
ghost use Rattle.std.specs.Prelude.{◌≡◌, ◌*◌, ◌^◌, true, false, bit_or};
ghost use Rattle.rounding.specs.Format.{binary32, is_finite, is_zero};
ghost use Rattle.arithmetic.specs.Defined.{square, Gives};

use crate::class::Class;
use crate::operand::scale_up;
use crate::plain::silent;
use crate::standing::StandingFlags;
use rounding::encoding::Encoding;
use rounding::round::{Answer, round};
use rounding::rule::Rule;
use rounding::truncated::Truncated;

// The square of a number other than zero: the product of its 24 bits with themselves is exact.
fn rounded_square<R: Rule>(rule: &R, operand: Encoding) -> Answer
    requires { (is_finite binary32 operand.bits ≡ true) × (is_zero binary32 operand.bits ≡ false) }
    ensures { Gives result (square binary32 (R.meaning rule.now) operand.bits) }
{
    let number = scale_up(operand);
    let product = number.bits as u64 * number.bits as u64;
    let value = Truncated::new(product, (2 * number.power + 61) as u16, false).unwrap();
    round(rule, false, value)
}

// The square, before its flags are gathered. Here as in `square` the contract is the defined answer itself: there is no shorter way to say it.
fn multiply<R: Rule>(rule: &R, operand: Encoding) -> Answer
    ensures { Gives result (square binary32 (R.meaning rule.now) operand.bits) }
{
    match Class::from(operand) {
        Class::Nan => silent(Encoding::quiet_nan()),
        Class::Infinity => silent(Encoding::infinity(false)),
        Class::Zero => silent(Encoding::zero(false)),
        Class::Number => rounded_square(rule, operand),
    }
}

// The square under a rule; the flags that it raises are gathered too.
pub fn square<R: Rule>(rule: &R, standing: &mut StandingFlags, operand: Encoding) -> Answer
    ensures answer { Gives result (square binary32 (R.meaning rule.now) operand.bits) }
    ensures gathered { standing.new.raised.number ≡ bit_or standing.old.raised.number result.flags.number }
{
    let answer = multiply(rule, operand);
    standing.raise(answer.flags);
    answer
}
