// The C boundary: quotient, square and a meter's calls over plain numbers, each checked as it comes in.
#![tactic(auto)]

pub mod answer;
pub mod averages;
mod chosen;
pub mod data;
pub mod fixed;
pub mod numbers;
pub mod polls;
mod refusal;
pub mod replies;
mod restored;
mod shown;
