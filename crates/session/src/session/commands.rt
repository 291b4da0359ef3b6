// The commands of a single word.
ghost use Rattle.std.specs.Prelude.{◌≡◌};
ghost use Rattle.forms.specs.declared.Command.TheVariants as command;
ghost use Rattle.forms.specs.declared.Form.TheVariants as form;
ghost use Rattle.session.specs.Answers.{Comes};
ghost use Rattle.session.specs.Sessions.{at_desk};

use super::Desk;
use crate::fault::ConsoleFault;
use answers::Answer;
use forms::Command;

impl Desk {
    fn peak(&self) -> Result<Answer, ConsoleFault>
        ensures { Comes (at_desk self.now) (form.Command command.Peak) result (at_desk self.now) }
    {
        let peak = self.meter.peak()?;
        Ok(Answer::Peak {
            place: peak.place as u16,
            encoding: peak.encoding.to_bits(),
        })
    }

    fn flags(&self) -> Answer
        ensures { result ≡ Answer.Flags self.now.standing.raised.number }
    {
        Answer::Flags(self.standing.raised().number())
    }

    pub(crate) fn command(&mut self, command: Command) -> Result<Answer, ConsoleFault>
        ensures { Comes (at_desk self.old) (form.Command command) result (at_desk self.new) }
    {
        match command {
            Command::Peak => self.peak(),
            Command::Retire => Ok(Answer::Left(self.meter.retire()? as u16)),
            Command::Retract => Ok(Answer::Left(self.meter.retract()? as u16)),
            Command::Flags => Ok(self.flags()),
            Command::Clear => {
                self.standing.clear();
                Ok(self.flags())
            }
        }
    }
}
