// The layout of magnitudes that number formats share.
#![tactic(auto)]

mod magnitudes;

pub use magnitudes::Layout;

// The size significand × 2^exponent.
#[derive(Clone, Copy)]
pub struct Size {
    pub significand: u16,
    pub exponent: i8,
}
