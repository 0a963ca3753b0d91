// Number formats: what a code reads as, and the code of a reading.
#![tactic(auto)]

pub mod any;
pub mod binary16;
pub mod fault;
pub mod format;
pub mod p3109;
pub mod reading;
mod signs;
