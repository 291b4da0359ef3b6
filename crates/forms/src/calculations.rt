// Reading what is to be computed.
ghost use Rattle.std.specs.Prelude.{◌^◌, ◌<◌};
ghost use Rattle.forms.specs.Calculations.{calculation, divided, encoded, trial, Encodings, Sized};
ghost use Rattle.lex.specs.Reads.{Reads};

use crate::Calculation;
use lex::{hexadecimal, inside, is, split};

// A head and an encoding, as in (sqr H).
pub fn read_encoded(line: &[u8], head: &[u8]) -> Option<u32>
    ensures { Reads (encoded head.now) (λ n. n < 2 ^ 32) line.now result }
{
    hexadecimal(inside(line, head)?)
}

// (div H H)
fn read_divided(line: &[u8]) -> Option<(u32, u32)>
    ensures { Reads divided Encodings line.now result }
{
    let (dividend, divisor) = split(inside(line, b"(div ")?)?;
    Some((hexadecimal(dividend)?, hexadecimal(divisor)?))
}

pub fn read_calculation(line: &[u8]) -> Option<Calculation>
    ensures { Reads calculation Sized line.now result }
{
    match line {
        _ if is(line, b"(mean)") => Some(Calculation::Mean),
        _ if is(line, b"(meansq)") => Some(Calculation::MeanSquare),
        _ => read_encoded(line, b"(sqr ")
            .map(|operand| Calculation::Square { operand })
            .or_else(|| {
                read_divided(line).map(|(dividend, divisor)| Calculation::Divide {
                    dividend,
                    divisor,
                })
            }),
    }
}

pub fn read_trial(line: &[u8]) -> Option<Calculation>
    ensures { Reads trial Sized line.now result }
{
    read_calculation(inside(line, b"(try ")?)
}
