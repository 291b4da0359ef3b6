// The line that sets the meter up.
ghost use Rattle.std.specs.Prelude.{◌≡◌, false};
ghost use Rattle.forms.specs.declared.Form.TheVariants as form;
ghost use Rattle.session.specs.Answers.{Comes, Fitted};
ghost use Rattle.session.specs.Sessions.{state, engine_of};

use super::Session;
use crate::fault::ConsoleFault;
use answers::Answer;
use engine_choice::AnyEngine;
use forms::Setup;
use meter::address::Address;
use meter::meter::Meter;

impl Session {
    // A meter made anew, once the address is checked.
    pub(crate) fn set_up(&mut self, setup: Setup) -> Result<Answer, ConsoleFault>
        requires { self.old.ready ≡ false }
        ensures comes { Comes (state self.old) (form.Meter setup) result (state self.new) }
        ensures fitted { Fitted (form.Meter setup) result (engine_of self.new) }
    {
        let address = Address::try_from(setup.address)?;
        self.desk.meter = Meter::new(address, AnyEngine::new(setup.engine), setup.rule);
        self.ready = true;
        Ok(Answer::Ready(setup.address))
    }
}
