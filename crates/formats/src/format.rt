// The interface that every number format implements.
ghost use Rattle.std.specs.Prelude.{◌≡◌};
ghost use Rattle.formats.specs.Meaning.{Meaning, Lawful};
ghost use Rattle.formats.specs.Readings.{Decodes, Encodes};

use crate::fault::Fault;
use crate::reading::Reading;

// K, P, q and M of a format.
#[derive(Clone, Copy)]
pub struct Shape {
    pub width: u8,
    pub precision: u8,
    pub least_exponent: i8,
    // The largest finite value, in units of 2^-32.
    pub largest: u64,
}

pub trait Format {
    ghost meaning: { Self → Meaning };

    fn shape(&self) -> Shape
        ensures width { result.width ≡ (meaning self.now).width }
        ensures precision { result.precision ≡ (meaning self.now).precision }
        ensures least { result.least_exponent ≡ (meaning self.now).least }
        ensures largest { result.largest ≡ (meaning self.now).largest };

    // The code's reading; refused (2) at a code of 2^K or more.
    fn decode(&self, code: u16) -> Result<Reading, Fault>
        ensures { Decodes (meaning self.now) code result };

    // The code of a reading, the same however its value is written; refused (3) exactly where no
    // code has that value.
    fn encode(&self, reading: Reading) -> Result<u16, Fault>
        ensures { Encodes (meaning self.now) reading result };

    ghost lawful: { (x : Self) → Lawful (meaning x) };
}
