// Sheets: records in a row, run on a bench of four registers.
#![tactic(auto)]

pub mod bench;
pub mod fault;
pub mod line;
pub mod run;
