// Exact sums of words by their binary digits, and the pair of whole numbers that a mean asks an engine for.
#![tactic(auto)]

pub mod bits;
mod carry;
pub mod laws;
mod leading;
pub mod pair;
pub mod sums;
