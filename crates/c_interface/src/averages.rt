// Mean and mean square of a meter's standing replies, for C.
ghost use Rattle.std.specs.Prelude.{◌≡◌};
ghost use Rattle.c_interface.specs.Numbers.{number_refusal};
ghost use Rattle.c_interface.specs.Refusals.{answered};
ghost use Rattle.c_interface.specs.Calls.{average_answer, mean_answer, mean_square_answer};

use crate::answer::NumberAnswer;
use crate::data::MeterData;
use crate::refusal::Refusal;
use crate::restored::restored;
use arithmetic::standing::StandingFlags;
use engines::Engine;
use window::average::Average;

#[inline(always)]
fn averaged(meter: &MeterData, which: Average) -> Result<NumberAnswer, Refusal>
    ensures { answered result number_refusal ≡ average_answer which meter.now }
{
    let mut held = restored(meter)?;
    let answer = held.average(&mut StandingFlags::new(), which)?;
    Ok(NumberAnswer::accepted(answer, held.log()))
}

#[unsafe(no_mangle)]
pub extern "C" fn wozkerrim_mean(meter: MeterData) -> NumberAnswer
    ensures { result ≡ mean_answer meter }
{
    averaged(&meter, Average::Mean).unwrap_or_else(NumberAnswer::from)
}

#[unsafe(no_mangle)]
pub extern "C" fn wozkerrim_mean_square(meter: MeterData) -> NumberAnswer
    ensures { result ≡ mean_square_answer meter }
{
    averaged(&meter, Average::MeanSquare).unwrap_or_else(NumberAnswer::from)
}
