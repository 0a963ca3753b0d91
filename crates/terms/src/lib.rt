// Terms of a sum: readings, and scaled products of readings.
#![tactic(auto)]

mod factor;
pub mod scale;
pub mod scaled;
pub mod term;
