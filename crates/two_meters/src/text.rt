// Calls and what they told, as text.
use meter::call::{Call, NamedPoll};
use replay::step::{Refusal, SeenPoll, Told};
use std::fmt;

// A poll: its address and attempt.
#[derive(Clone, Copy)]
struct PollText(u8, u8);

impl From<NamedPoll> for PollText {
    fn from(named: NamedPoll) -> PollText {
        PollText(named.address.number(), named.attempt.number())
    }
}

impl From<SeenPoll> for PollText {
    fn from(seen: SeenPoll) -> PollText {
        PollText(seen.address, seen.attempt)
    }
}

impl fmt::Display for PollText {
    fn fmt<W: fmt::Write>(&self, f: &mut fmt::Formatter<W>) -> fmt::Result {
        write!(f, "{}/{}", self.0, self.1)
    }
}

#[derive(Clone, Copy)]
pub struct CallText(pub Call);

impl fmt::Display for CallText {
    fn fmt<W: fmt::Write>(&self, f: &mut fmt::Formatter<W>) -> fmt::Result {
        match self.0 {
            Call::Poll => f.write_str("poll"),
            Call::Repeat(named) => write!(f, "repeat {}", PollText::from(named)),
            Call::Reply(named, encoding) => {
                write!(
                    f,
                    "reply {} {:08X}",
                    PollText::from(named),
                    encoding.to_bits()
                )
            }
            Call::Lapse(named) => write!(f, "lapse {}", PollText::from(named)),
            Call::Retire => f.write_str("retire"),
            Call::Retract => f.write_str("retract"),
            Call::Quotient { dividend, divisor } => {
                write!(
                    f,
                    "quotient {:08X} {:08X}",
                    dividend.to_bits(),
                    divisor.to_bits()
                )
            }
            Call::Square { operand } => write!(f, "square {:08X}", operand.to_bits()),
            Call::Mean => f.write_str("mean"),
            Call::MeanSquare => f.write_str("mean square"),
        }
    }
}

#[derive(Clone, Copy)]
pub struct ToldText(pub Result<Told, Refusal>);

impl fmt::Display for ToldText {
    fn fmt<W: fmt::Write>(&self, f: &mut fmt::Formatter<W>) -> fmt::Result {
        match self.0 {
            Ok(Told::Pending(seen)) => write!(f, "pending {}", PollText::from(seen)),
            Ok(Told::Taken(count)) => write!(f, "taken {count}"),
            Ok(Told::Lapsed) => f.write_str("lapsed"),
            Ok(Told::Left(count)) => write!(f, "left {count}"),
            Ok(Told::Number(answer)) => {
                write!(
                    f,
                    "{:08X} {}",
                    answer.encoding.to_bits(),
                    answer.flags.number()
                )
            }
            Err(Refusal { fault, poll: None }) => write!(f, "refused, {}", fault.number()),
            Err(
                Refusal {
                    fault,
                    poll: Some(seen),
                },
            ) => {
                write!(
                    f,
                    "refused, {}, {} handed back",
                    fault.number(),
                    PollText::from(seen)
                )
            }
        }
    }
}
