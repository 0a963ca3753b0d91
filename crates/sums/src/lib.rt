// Exact sums.
#![tactic(auto)]

pub mod magnitude;
pub mod signed;
pub mod sum;
mod words;
