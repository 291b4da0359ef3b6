// Lines: each gets one answer, whatever it is.
ghost use Rattle.std.specs.Prelude.{◌≡◌, ◌≤◌};
ghost use Rattle.session.specs.Answers.{Comes, Fitted, Responds, Answered, begun, told};
ghost use Rattle.session.specs.Sessions.{state, engine_of};

use super::{Desk, Session};
use crate::fault::ConsoleFault;
use answers::{Answer, write};
use arithmetic::standing::StandingFlags;
use engine_choice::{AnyEngine, EngineName};
use forms::{Form, read};
use meter::address::Address;
use meter::meter::Meter;
use rounding::rules::AnyRule;

// What is written of a result: the answer, or the number of the fault.
fn told(res: Result<Answer, ConsoleFault>) -> Answer
    ensures { result ≡ told res }
{
    res.unwrap_or_else(|fault| Answer::Refused(fault.number()))
}

impl Session {
    // Nothing is on record, and the meter waits for the line that sets it up.
    pub fn new() -> Session
        ensures is { state result ≡ begun }
        ensures fitted { engine_of result ≡ EngineName.Digits }
    {
        let address = Address::try_from(1).unwrap();
        let desk = Desk {
            meter: Meter::new(address, AnyEngine::new(EngineName::Digits), AnyRule::Even),
            standing: StandingFlags::new(),
        };
        Session { desk, ready: false }
    }

    // What a form comes to.
    fn take(&mut self, form: Form) -> Result<Answer, ConsoleFault>
        ensures comes { Comes (state self.old) form result (state self.new) }
        ensures fitted { Fitted form result (engine_of self.new) }
    {
        match (form, self.ready) {
            (Form::Meter(setup), false) => self.set_up(setup),
            (Form::Compute(calculation), true) => self.desk.compute(calculation),
            (Form::Command(command), true) => self.desk.command(command),
            (Form::Poll(plan), true) => self.desk.poll(plan),
            (Form::Try(calculation), true) => self.desk.attempt(calculation),
            (Form::Meter(_), true) | (_, false) => Err(ConsoleFault::Text),
        }
    }

    // The answer to a line, which comes without its line feed.
    pub fn respond(&mut self, line: &[u8]) -> Result<Answer, ConsoleFault>
        ensures { Responds (state self.old) line.now result (state self.new) (engine_of self.new) }
    {
        let form = read(line).ok_or(ConsoleFault::Text)?;
        self.take(form)
    }

    // Lays the text of the answer at the front of `out`, and says how long it is. The bytes behind it stay.
    pub fn answer(&mut self, line: &[u8], out: &mut [u8; 32]) -> usize
        ensures answered { Answered (state self.old) line.now out.old (state self.new) (engine_of self.new) result out.new }
        ensures fits { result ≤ 32 }
    {
        write(told(self.respond(line)), out)
    }
}
