// What a meter computes, over its engine and under its rule.
ghost use Rattle.std.specs.Prelude.{◌≡◌, Some, None, MatchResult, OnErr, bit_or};
ghost use Rattle.rounding.specs.Format.{binary32};
ghost use Rattle.arithmetic.specs.Defined.{quotient, quotient_log, square, Gives};
ghost use Rattle.means.specs.Defined.{average_of, average_log};
ghost use Rattle.meter.specs.Model.{refuses_empty};

use super::Meter;
use crate::fault::MeterFault;
use arithmetic::quotient::quotient;
use arithmetic::square::square;
use arithmetic::standing::StandingFlags;
use engines::{Engine, Log};
use means::average::average;
use rounding::encoding::Encoding;
use rounding::round::Answer;
use rounding::rule::Rule;
use window::average::Average;

impl<E: Engine, R: Drop> Meter<E, R> {
    // The meter's end: its engine comes back.
    pub fn into_engine(self) -> E
        ensures { result ≡ self.engine }
    {
        self.engine
    }
}

impl<E: Engine, R: Rule> Meter<E, R> {
    // The engine's meaning.
    pub fn log(&self) -> Log
        ensures { result ≡ E.logged self.now.engine }
    {
        self.engine.log()
    }

    pub fn quotient(
        &mut self,
        flags: &mut StandingFlags,
        dividend: Encoding,
        divisor: Encoding,
    ) -> Answer
        ensures answer { Gives result (quotient binary32 (R.meaning self.old.rule) dividend.bits divisor.bits) }
        ensures gathered { flags.new.raised.number ≡ bit_or flags.old.raised.number result.flags.number }
        ensures after { self.new.model ≡ self.old.model }
        ensures engine { E.logged self.new.engine ≡ quotient_log binary32 (E.logged self.old.engine) dividend.bits divisor.bits }
        ensures rule { self.new.rule ≡ self.old.rule }
    {
        quotient(&mut self.engine, &self.rule, flags, dividend, divisor)
    }

    pub fn square(&mut self, flags: &mut StandingFlags, operand: Encoding) -> Answer
        ensures answer { Gives result (square binary32 (R.meaning self.old.rule) operand.bits) }
        ensures gathered { flags.new.raised.number ≡ bit_or flags.old.raised.number result.flags.number }
        ensures after { self.new ≡ self.old }
    {
        square(&self.rule, flags, operand)
    }

    // The exact mean of the standing replies or of their squares, rounded once.
    pub fn average(
        &mut self,
        flags: &mut StandingFlags,
        which: Average,
    ) -> Result<Answer, MeterFault>
        ensures result { MatchResult result (λ a. (refuses_empty self.old.model ≡ None) × Gives a (average_of which (R.meaning self.old.rule) self.old.model.replies)) (λ fault. refuses_empty self.old.model ≡ Some fault) }
        ensures gathered { MatchResult result (λ a. flags.new.raised.number ≡ bit_or flags.old.raised.number a.flags.number) (λ _. flags.new ≡ flags.old) }
        ensures after { self.new.model ≡ self.old.model }
        ensures engine { E.logged self.new.engine ≡ average_log which (E.logged self.old.engine) self.old.model.replies }
        ensures untouched { OnErr result (self.new.engine ≡ self.old.engine) }
        ensures rule { self.new.rule ≡ self.old.rule }
    {
        Ok(average(&self.window, which, &mut self.engine, &self.rule, flags)?)
    }
}
