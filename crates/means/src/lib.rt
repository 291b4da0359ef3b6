// Means and mean squares of a window, over any engine and rule, rounded once.
#![tactic(auto)]

mod answering;
pub mod average;
#[cfg(test)]
mod tests;
