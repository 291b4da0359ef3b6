// What the console answers to a line, and its text in a buffer that is lent.
#![tactic(auto)]

ghost use Rattle.std.specs.Prelude.{◌≡◌, ◌++◌, length, drop};
ghost use Rattle.answers.specs.Answers.{text};

mod shapes;
mod texts;

use shapes::{counted, numbered, peaked};
use texts::Text;

// The longest text has 21 bytes, so every answer fits the buffer.
#[derive(Clone, Copy)]
pub enum Answer {
    // The meter was set up at this address: (ok 17)
    Ready(u16),
    // What was computed, and the flags that it raised: (num 3EAAAAAB 16)
    Number { encoding: u32, flags: u8 },
    // How many replies stand after a reply, a lapse, or one taken away: (taken 1), (lapsed 2), (left 1)
    Taken(u16),
    Lapsed(u16),
    Left(u16),
    // The greatest standing reply and its place: (peak 1 3F800000)
    Peak { place: u16, encoding: u32 },
    // The flags on record: (flags 16). This and the next by number, as all else here is: what is written, whatever it is taken from.
    Flags(u8),
    // The refusal: (no 3)
    Refused(u8),
}

impl Answer {
    fn written(self) -> Text
        ensures { result.bytes.items ≡ text self }
    {
        match self {
            Answer::Ready(address) => counted(b"(ok ", address),
            Answer::Number { encoding, flags } => numbered(encoding, flags),
            Answer::Taken(standing) => counted(b"(taken ", standing),
            Answer::Lapsed(standing) => counted(b"(lapsed ", standing),
            Answer::Left(standing) => counted(b"(left ", standing),
            Answer::Peak { place, encoding } => peaked(place, encoding),
            Answer::Flags(flags) => counted(b"(flags ", flags.into()),
            Answer::Refused(number) => counted(b"(no ", number.into()),
        }
    }
}

// Lays the answer's text at the front of `out`, and says how long it is. The bytes behind it stay: that the buffer is lent, with 32 bytes, is a
// rule of the project.
pub fn write(answer: Answer, out: &mut [u8; 32]) -> usize
    ensures end { result ≡ length (text answer) }
    ensures after { out.new ≡ text answer ++ drop (length (text answer)) out.old }
{
    let text = answer.written();
    let end = text.bytes.len();
    out[..end].copy_from_slice(text.bytes.as_slice());
    end
}
