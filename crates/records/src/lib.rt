// Records of a sheet: their kinds, their bodies, their fields, and why one is refused.
#![tactic(auto)]

pub mod fault;
pub mod fields;
pub mod kind;
pub mod record;
pub mod split;
