// A size on its way into a format.
ghost use Rattle.std.specs.Prelude.{◌^◌, ◌<◌, ◌≤◌};
ghost use Rattle.std.proofs.Props.{props};

use sums::magnitude::Cut;

// The sign and the size of a sum, which is cut at the place of the last digit, counted from 2^-96.
#[derive(Clone, Copy)]
pub(crate) struct Placed {
    pub(crate) negative: bool,
    pub(crate) place: u32,
    pub(crate) cut: Cut,
    ghost deep: { 64 ≤ place } by { Prim.hlevel props },
    ghost short: { cut.digits < 2 ^ 12 } by { Prim.hlevel props },
}
