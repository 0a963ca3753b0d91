// IEEE 754 binary16.
ghost use Rattle.formats.specs.Binary16.{binary16};
ghost use Rattle.formats.specs.Binary16Laws.{binary16_lawful};
ghost use Rattle.formats.specs.Codings.{Means};

use crate::fault::Fault;
use crate::format::{Format, Shape};
use crate::reading::Reading;
use crate::signs::SignMagnitude;
use layout::Layout;

#[derive(Clone, Copy)]
pub struct Binary16;

// Every code of 16 bits has a reading: those of the infinities are 0x7C00 and 0xFC00.
fn coding() -> SignMagnitude
    ensures { Means binary16 result }
{
    SignMagnitude {
        width: 16,
        magnitudes: Layout {
            precision: 11,
            least_exponent: -24,
            count: 0x7C00,
        },
        nan: 0x7E00,
    }
}

impl Format for Binary16 {
    ghost meaning = { λ _. binary16 };

    ghost lawful = { λ x. binary16_lawful };

    fn shape(&self) -> Shape {
        coding().shape()
    }

    fn decode(&self, code: u16) -> Result<Reading, Fault> {
        coding().decode(code)
    }

    fn encode(&self, reading: Reading) -> Result<u16, Fault> {
        coding().encode(reading)
    }
}
