// What a code reads as.

// The finite value ±significand × 2^exponent. Zero has no sign: `negative` says nothing there. It is
// flat and holds no `Size`, since callers write and read its three numbers.
#[derive(Clone, Copy, Debug, PartialEq, Eq)]
pub struct Dyadic {
    pub negative: bool,
    pub significand: u16,
    pub exponent: i8,
}

#[derive(Clone, Copy, Debug, PartialEq, Eq)]
pub enum Reading {
    Nan,
    PositiveInfinity,
    NegativeInfinity,
    Finite(Dyadic),
}
