// Quotients and squares of binary32 encodings over any engine and rule, with their flags.
#![tactic(auto)]

mod class;
mod operand;
mod plain;
pub mod quotient;
pub mod square;
pub mod standing;
#[cfg(test)]
mod tests;
