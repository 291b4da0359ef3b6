// A console session: one meter, set up by a line, and the record of flags; every line gets one answer.
#![tactic(auto)]

pub mod fault;
pub mod session;
