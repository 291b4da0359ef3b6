// Console lines: the forms that they can have, and `read`, which finds the form of a line.
#![tactic(auto)]

ghost use Rattle.std.specs.Prelude.{◌≤◌, length};
ghost use Rattle.forms.specs.Forms.{Good, OneForm, text};
ghost use Rattle.lex.specs.Reads.{Reads};

mod calculations;
mod commands;
mod meters;
mod polls;

use calculations::{read_calculation, read_trial};
use commands::read_command;
use engine_choice::EngineName;
use meters::read_setup;
use polls::read_poll;
use rounding::rules::AnyRule;

// (meter ADDRESS ENGINE RULE). The address may still be none that a meter can have.
#[derive(Clone, Copy)]
pub struct Setup {
    pub address: u16,
    pub engine: EngineName,
    pub rule: AnyRule,
}

// (div H H), (sqr H), (mean) and (meansq), the operands as encodings. A case for each form, as a user of the console knows them.
#[derive(Clone, Copy)]
pub enum Calculation {
    Divide { dividend: u32, divisor: u32 },
    Square { operand: u32 },
    Mean,
    MeanSquare,
}

// The forms of a single word: (peak), (retire), (retract), (flags) and (clear).
#[derive(Clone, Copy)]
pub enum Command {
    Peak,
    Retire,
    Retract,
    Flags,
    Clear,
}

// How a poll ends: (reply H) or (lapse).
#[derive(Clone, Copy)]
pub enum Ending {
    Reply(u32),
    Lapse,
}

// (poll P), where P is an ending inside as many (again P) as the poll is repeated.
#[derive(Clone, Copy)]
pub struct Poll {
    pub again: u8,
    pub ending: Ending,
}

#[derive(Clone, Copy)]
pub enum Form {
    Meter(Setup),
    Compute(Calculation),
    Command(Command),
    Poll(Poll),
    // (try F): the same, its flags kept off the record.
    Try(Calculation),
}

const LONGEST: usize = 80;

// The form of a line that is not too long. The order does not matter, since no line has two forms.
fn read_short(line: &[u8]) -> Option<Form>
    requires { length line.now ≤ 80 }
    ensures { Reads text Good line.now result }
{
    read_setup(line)
        .map(Form::Meter)
        .or_else(|| read_calculation(line).map(Form::Compute))
        .or_else(|| read_command(line).map(Form::Command))
        .or_else(|| read_poll(line).map(Form::Poll))
        .or_else(|| read_trial(line).map(Form::Try))
}

// The form of a line, which comes without its line feed, or `None` where it has none.
pub fn read(line: &[u8]) -> Option<Form>
    ensures reads { Reads text Good line.now result }
    ensures one { OneForm }
{
    if line.len() > LONGEST {
        None
    } else {
        read_short(line)
    }
}
