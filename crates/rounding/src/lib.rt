// Rounding once: encodings, flags, the kinds of rest, rules, and the rounding of a truncated value to binary32.
#![tactic(auto)]

pub mod encoding;
pub mod flags;
pub mod laws;
pub mod rest;
pub mod round;
pub mod rule;
pub mod rules;
pub mod truncated;
