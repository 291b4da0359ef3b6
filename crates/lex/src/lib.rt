// The small parts of a console line, each read exactly: a group in parentheses, two parts with a space between
// them, and numbers. A reader takes the whole of what it is given or answers `None`; none hands back a rest.
#![tactic(auto)]

mod numbers;
mod parts;

pub use numbers::{decimal, hexadecimal};
pub use parts::{inside, is, split};
