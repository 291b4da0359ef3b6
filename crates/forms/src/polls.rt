// Reading a poll: how often it is repeated, and how it ends.
ghost use Rattle.std.specs.Prelude.{◌≤◌, length};
ghost use Rattle.forms.specs.Polls.{ending, poll, Ended, Polled};
ghost use Rattle.lex.specs.Reads.{Reads};

use crate::calculations::read_encoded;
use crate::{Ending, Poll};
use lex::{inside, is};

fn read_ending(text: &[u8]) -> Option<Ending>
    ensures { Reads ending Ended text.now result }
{
    match text {
        _ if is(text, b"(lapse)") => Some(Ending::Lapse),
        _ => read_encoded(text, b"(reply ").map(Ending::Reply),
    }
}

pub fn read_poll(line: &[u8]) -> Option<Poll>
    requires { length line.now ≤ 80 }
    ensures { Reads poll Polled line.now result }
{
    let mut rest = inside(line, b"(poll ")?;
    let mut again = 0;
    while let Some(inner) = inside(rest, b"(again ") {
        rest = inner;
        again += 1;
    }
    Some(Poll {
        again,
        ending: read_ending(rest)?,
    })
}
