// The window of standing replies: at most 288 finite encodings in the order of their coming, with their exact sums at hand.
#![tactic(auto)]

pub mod ask;
pub mod average;
pub mod fault;
mod order;
pub mod peak;
pub mod reading;
mod ring;
pub mod window;
mod words;
