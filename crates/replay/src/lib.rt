// Replay: lists of calls performed on two fresh meters, and the promise over whole runs.
#![tactic(auto)]

pub mod examples;
mod perform;
pub mod replaying;
pub mod step;
mod stepping;
pub mod tokens;
