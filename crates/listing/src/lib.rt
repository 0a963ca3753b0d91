// Tables of what the codes of a format read as.
#![tactic(auto)]

mod numerals;
pub mod rows;
pub mod tables;
