// The words that rounding speaks of.

pub use sums::magnitude::Remainder;

// How the answered reading lies to the exact value. Not an `Option<Ordering>`: these are the words that
// reports print.
#[derive(Clone, Copy, PartialEq, Eq)]
pub enum Mark {
    Exact,
    Low,
    High,
    // The exact value is NaN; printed as "none".
    Unordered,
}

// What becomes of a result beyond the finite values.
#[derive(Clone, Copy, PartialEq, Eq)]
pub enum Saturation {
    SatFinite,
    SatPropagate,
    OvfInf,
}
