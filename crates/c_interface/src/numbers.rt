// Quotient and square for C, over an engine and a rule that are named by number.
ghost use Rattle.std.specs.Prelude.{◌≡◌};
ghost use Rattle.c_interface.specs.Refusals.{answered};
ghost use Rattle.c_interface.specs.Numbers.{number_refusal, quotient_answer, square_answer};

use crate::answer::NumberAnswer;
use crate::chosen::{engine_numbered, rule_numbered};
use crate::refusal::Refusal;
use arithmetic::quotient::quotient;
use arithmetic::square::square;
use arithmetic::standing::StandingFlags;
use engine_choice::AnyEngine;
use engines::{Engine, Log};
use rounding::encoding::Encoding;

// A quotient over a new engine, with what it was asked.
fn divided(
    engine: u8,
    rule: u8,
    dividend: Encoding,
    divisor: Encoding,
) -> Result<NumberAnswer, Refusal>
    ensures { answered result number_refusal ≡ quotient_answer engine rule dividend.bits divisor.bits }
{
    let mut chosen = AnyEngine::new(engine_numbered(engine)?);
    let answer = quotient(
        &mut chosen,
        &rule_numbered(rule)?,
        &mut StandingFlags::new(),
        dividend,
        divisor,
    );
    Ok(NumberAnswer::accepted(answer, chosen.log()))
}

fn squared(rule: u8, operand: Encoding) -> Result<NumberAnswer, Refusal>
    ensures { answered result number_refusal ≡ square_answer rule operand.bits }
{
    let answer = square(&rule_numbered(rule)?, &mut StandingFlags::new(), operand);
    Ok(NumberAnswer::accepted(answer, Log::new()))
}

#[unsafe(no_mangle)]
pub extern "C" fn wozkerrim_quotient(
    engine: u8,
    rule: u8,
    dividend: u32,
    divisor: u32,
) -> NumberAnswer
    ensures { result ≡ quotient_answer engine rule dividend divisor }
{
    divided(
        engine,
        rule,
        Encoding::from_bits(dividend),
        Encoding::from_bits(divisor),
    )
    .unwrap_or_else(NumberAnswer::from)
}

#[unsafe(no_mangle)]
pub extern "C" fn wozkerrim_square(rule: u8, operand: u32) -> NumberAnswer
    ensures { result ≡ square_answer rule operand }
{
    squared(rule, Encoding::from_bits(operand)).unwrap_or_else(NumberAnswer::from)
}
