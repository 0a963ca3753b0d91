// Any of the formats, chosen by a format byte.
ghost use Rattle.std.specs.Prelude.{◌≡◌};
ghost use Rattle.formats.specs.AnyFormat.{meaning_of, ByByte};
ghost use Rattle.formats.specs.declared.any.AnyFormat.TheVariants.{OfBinary16, OfP3109};
ghost use Rattle.formats.specs.Binary16Laws.{binary16_lawful};
ghost use Rattle.formats.specs.OwnFacts.{exists};
ghost use Rattle.formats.specs.P3109Laws.{p3109_lawful};

use crate::binary16::Binary16;
use crate::fault::Fault;
use crate::format::{Format, Shape};
use crate::p3109::P3109;
use crate::reading::Reading;

#[derive(Clone, Copy)]
pub enum AnyFormat {
    OfBinary16(Binary16),
    OfP3109(P3109),
}

// 0 is binary16, and 16 × K + P the P3109 format of width K and precision P; any other byte is
// refused (1).
impl TryFrom<u8> for AnyFormat {
    type Error = Fault;

    ghost try_from_gives = { ByByte };

    fn try_from(byte: u8) -> Result<AnyFormat, Fault> {
        if byte == 0 {
            return Ok(AnyFormat::OfBinary16(Binary16));
        }
        Ok(AnyFormat::OfP3109(P3109::new(byte / 16, byte % 16)?))
    }
}

// Three matches: one function that hands out the format as a `dyn` value is not allowed here.
impl Format for AnyFormat {
    ghost meaning = { meaning_of };

    ghost lawful = { elim [
      | OfBinary16 f ↦ binary16_lawful
      | OfP3109 f ↦ p3109_lawful f.width f.precision (exists f)
    ] };

    fn shape(&self) -> Shape {
        match self {
            AnyFormat::OfBinary16(format) => format.shape(),
            AnyFormat::OfP3109(format) => format.shape(),
        }
    }

    // Always put into its caller: a call would hand the reading over in memory.
    #[inline(always)]
    fn decode(&self, code: u16) -> Result<Reading, Fault> {
        match self {
            AnyFormat::OfBinary16(format) => format.decode(code),
            AnyFormat::OfP3109(format) => format.decode(code),
        }
    }

    fn encode(&self, reading: Reading) -> Result<u16, Fault> {
        match self {
            AnyFormat::OfBinary16(format) => format.encode(reading),
            AnyFormat::OfP3109(format) => format.encode(reading),
        }
    }
}
