// Reading the forms of a single word. Here and in the other tables a word is compared by `is` alone.
ghost use Rattle.forms.specs.Commands.{command};
ghost use Rattle.lex.specs.Reads.{Reads};

use crate::Command;
use lex::is;

pub fn read_command(line: &[u8]) -> Option<Command>
    ensures { Reads command (λ _. Unit {0}) line.now result }
{
    match line {
        _ if is(line, b"(peak)") => Some(Command::Peak),
        _ if is(line, b"(retire)") => Some(Command::Retire),
        _ if is(line, b"(retract)") => Some(Command::Retract),
        _ if is(line, b"(flags)") => Some(Command::Flags),
        _ if is(line, b"(clear)") => Some(Command::Clear),
        _ => None,
    }
}
