// Reports as text.
#![tactic(auto)]

mod refusal;
pub mod text;
