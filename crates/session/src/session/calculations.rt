// Calculations: with their flags gathered, or as a trial.
ghost use Rattle.std.specs.Prelude.{◌≡◌, Some, None, MatchResult, bit_or};
ghost use Rattle.engine_choice.specs.Choice.{log_of};
ghost use Rattle.forms.specs.declared.Form.TheVariants as form;
ghost use Rattle.session.specs.Answers.{number_of, Comes};
ghost use Rattle.session.specs.Outcomes.{refuses_calculation, outcome, log_after};
ghost use Rattle.session.specs.Sessions.{at_desk};

use super::Desk;
use crate::fault::ConsoleFault;
use answers::Answer;
use arithmetic::standing::{StandingFlags, Trial};
use engine_choice::AnyEngine;
use forms::Calculation;
use meter::fault::MeterFault;
use meter::meter::Meter;
use rounding::encoding::Encoding;
use rounding::rules::AnyRule;
use window::average::Average;

// The calculation, whose flags are gathered in the record that is lent.
fn calculate(
    meter: &mut Meter<AnyEngine, AnyRule>,
    flags: &mut StandingFlags,
    calculation: Calculation,
) -> Result<Answer, MeterFault>
    ensures result { MatchResult result (λ a. (refuses_calculation meter.old.model calculation ≡ None) × (a ≡ number_of (outcome meter.old.rule meter.old.model calculation)) × (flags.new.raised.number ≡ bit_or flags.old.raised.number (outcome meter.old.rule meter.old.model calculation).flags)) (λ fault. (refuses_calculation meter.old.model calculation ≡ Some fault) × (flags.new.raised.number ≡ flags.old.raised.number)) }
    ensures meter { meter.new.model ≡ meter.old.model }
    ensures engine { MatchResult result (λ _. log_of meter.new.engine ≡ log_after (log_of meter.old.engine) meter.old.model calculation) (λ _. log_of meter.new.engine ≡ log_of meter.old.engine) }
    ensures rule { meter.new.rule ≡ meter.old.rule }
{
    let answer = match calculation {
        Calculation::Divide { dividend, divisor } => meter.quotient(
            flags,
            Encoding::from_bits(dividend),
            Encoding::from_bits(divisor),
        ),
        Calculation::Square { operand } => meter.square(flags, Encoding::from_bits(operand)),
        Calculation::Mean => meter.average(flags, Average::Mean)?,
        Calculation::MeanSquare => meter.average(flags, Average::MeanSquare)?,
    };
    Ok(Answer::Number {
        encoding: answer.encoding.to_bits(),
        flags: answer.flags.number(),
    })
}

impl Desk {
    pub(crate) fn compute(&mut self, calculation: Calculation) -> Result<Answer, ConsoleFault>
        ensures { Comes (at_desk self.old) (form.Compute calculation) result (at_desk self.new) }
    {
        Ok(calculate(&mut self.meter, &mut self.standing, calculation)?)
    }

    // The record is as before on every way out.
    pub(crate) fn attempt(&mut self, calculation: Calculation) -> Result<Answer, ConsoleFault>
        ensures { Comes (at_desk self.old) (form.Try calculation) result (at_desk self.new) }
    {
        let trial = Trial::begin(&mut self.standing);
        Ok(calculate(&mut self.meter, trial.standing, calculation)?)
    }
}
