// What the code of a term reads as.
ghost use Rattle.std.specs.Prelude.{◌≡◌};
ghost use Rattle.std.proofs.Props.{props};
ghost use Rattle.terms.specs.Smalls.{SmallValue};

use formats::fault::Fault;
use formats::format::Format;
use formats::reading::{Dyadic, Reading};

// A finite reading, which is small as those of every lawful format are.
#[derive(Clone, Copy)]
pub(crate) struct Small {
    pub(crate) value: Dyadic,
    ghost small: { SmallValue value } by { Prim.hlevel props },
}

// What a code reads as. No `Term`, which may be any product: a factor is small by its type.
#[derive(Clone, Copy)]
pub(crate) enum Factor {
    Nan,
    // True for the negative one.
    Infinite(bool),
    Finite(Small),
}

impl Factor {
    ghost use Rattle.terms.specs.Readings.{Reads, Signed};

    // The reading of a code; refused (2) at a code of 2^K or more. Always put into its caller, as a
    // format's decode is.
    #[inline(always)]
    pub(crate) fn read<F: Format>(format: &F, code: u16) -> Result<Factor, Fault>
        ensures { Reads (F.Format.meaning format.now) code result }
    {
        Ok(match format.decode(code)? {
            Reading::Nan => Factor::Nan,
            Reading::PositiveInfinity => Factor::Infinite(false),
            Reading::NegativeInfinity => Factor::Infinite(true),
            Reading::Finite(value) => Factor::Finite(Small { value }),
        })
    }

    // True for the negative sign; NaN and zero have none.
    pub(crate) fn sign(&self) -> Option<bool>
        ensures { Signed self.now result }
    {
        match self {
            Factor::Nan => None,
            Factor::Infinite(negative) => Some(*negative),
            Factor::Finite(Small { value }) => (value.significand != 0).then_some(value.negative),
        }
    }
}
