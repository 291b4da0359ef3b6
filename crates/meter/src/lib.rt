// A meter: an engine, a rule and up to 288 standing replies, polled at one inverter address.
#![tactic(auto)]

pub mod address;
pub mod call;
pub mod fault;
pub mod meter;
pub mod token;
