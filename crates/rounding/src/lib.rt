// Rounding rules, and the projection that rounds once.
#![tactic(auto)]

pub mod answers;
pub mod modes;
mod placed;
pub mod project;
pub mod rule;
pub mod rules;
