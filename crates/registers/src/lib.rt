// Registers: exact sums of terms with their count, and the laws over every history of calls.
#![tactic(auto)]

pub mod batch;
mod codes;
mod one;
mod pairs;
mod products;
pub mod register;
