// Quotient and square for C with the engine and the rule fixed when the firmware is built, ties to even: they stand in for a compiler's own
// division and product, look no number up and refuse nothing. One body, three names that C links, each with the promise in full.
ghost use Rattle.std.specs.Prelude.{◌≡◌};
ghost use Rattle.rounding.specs.Format.{binary32};
ghost use Rattle.rounding.specs.Rules.{even_rule};
ghost use Rattle.arithmetic.specs.Defined.{quotient, square};
ghost use Rattle.c_interface.specs.Fixed.{rounded_answer};

use arithmetic::quotient::quotient;
use arithmetic::square::square;
use arithmetic::standing::StandingFlags;
use cubic::Cubic;
use engines::Engine;
use engines::digits::Digits;
use radix4::Radix4;
use rounding::encoding::Encoding;
use rounding::round::Answer;
use rounding::rules::Even;

// An encoding with the flags that it raised.
#[repr(C)]
#[derive(Clone, Copy)]
pub struct RoundedAnswer {
    pub bits: u32,
    pub flags: u8,
}

impl From<Answer> for RoundedAnswer {
    ghost from_gives = { λ answer r. r ≡ record { bits = answer.encoding.bits; flags = answer.flags.number } };

    fn from(answer: Answer) -> RoundedAnswer {
        RoundedAnswer {
            bits: answer.encoding.to_bits(),
            flags: answer.flags.number(),
        }
    }
}

fn even_quotient<E: Engine + Drop>(mut engine: E, dividend: u32, divisor: u32) -> RoundedAnswer
    ensures { result ≡ rounded_answer (quotient binary32 even_rule dividend divisor) }
{
    let answer = quotient(
        &mut engine,
        &Even,
        &mut StandingFlags::new(),
        Encoding::from_bits(dividend),
        Encoding::from_bits(divisor),
    );
    answer.into()
}

#[unsafe(no_mangle)]
pub extern "C" fn wozkerrim_quotient_digits(dividend: u32, divisor: u32) -> RoundedAnswer
    ensures { result ≡ rounded_answer (quotient binary32 even_rule dividend divisor) }
{
    even_quotient(Digits::new(), dividend, divisor)
}

#[unsafe(no_mangle)]
pub extern "C" fn wozkerrim_quotient_radix4(dividend: u32, divisor: u32) -> RoundedAnswer
    ensures { result ≡ rounded_answer (quotient binary32 even_rule dividend divisor) }
{
    even_quotient(Radix4::new(), dividend, divisor)
}

#[unsafe(no_mangle)]
pub extern "C" fn wozkerrim_quotient_cubic(dividend: u32, divisor: u32) -> RoundedAnswer
    ensures { result ≡ rounded_answer (quotient binary32 even_rule dividend divisor) }
{
    even_quotient(Cubic::new(), dividend, divisor)
}

#[unsafe(no_mangle)]
pub extern "C" fn wozkerrim_square_even(operand: u32) -> RoundedAnswer
    ensures { result ≡ rounded_answer (square binary32 even_rule operand) }
{
    square(
        &Even,
        &mut StandingFlags::new(),
        Encoding::from_bits(operand),
    )
    .into()
}
