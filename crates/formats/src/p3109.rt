// The signed P3109 formats with infinities.
ghost use Rattle.std.specs.Prelude.{◌≡◌, ◌+◌, ◌<◌, ◌≤◌, Ok, Err};
ghost use Rattle.formats.specs.P3109.{Exists, bias, least, p3109};
ghost use Rattle.formats.specs.Codings.{Means};
ghost use Rattle.formats.specs.Refusals.{Refuses};
ghost use Rattle.formats.specs.P3109Laws.{p3109_lawful};

use crate::fault::Fault;
use crate::format::{Format, Shape};
use crate::reading::Reading;
use crate::signs::SignMagnitude;
use layout::Layout;

// The format of `width` bits and `precision`: from 3 to 8 bits, and a precision from 2 to one less.
#[derive(Clone, Copy)]
pub struct P3109 {
    pub width: u8,
    pub precision: u8,
    ghost wide: { 3 ≤ width },
    ghost narrow: { width ≤ 8 },
    ghost precise: { 2 ≤ precision },
    ghost short: { precision < width },
}

impl P3109 {
    // Refused (1) at any other width or precision.
    pub fn new(width: u8, precision: u8) -> Result<P3109, Fault>
        ensures { elim result [ Ok f ↦ (f.width ≡ width) × (f.precision ≡ precision) | Err e ↦ Refuses 1 0 e × (Exists width precision → ⊥) ] }
    {
        match (width, precision) {
            (3..=8, 2..) if precision < width => Ok(P3109 { width, precision }),
            _ => Err(Fault::NoSuchFormat),
        }
    }

    fn bias(&self) -> u8
        ensures { (result ≡ bias self.now.width self.now.precision) × (result + self.now.precision ≤ 34) }
    {
        1 << (self.width - self.precision - 1)
    }

    fn least_exponent(&self) -> i8
        ensures { result ≡ least self.now.width self.now.precision }
    {
        2 - (self.bias() + self.precision).cast_signed()
    }

    // The sign bit alone is the code of NaN, and infinity's are the last codes of either sign.
    fn coding(&self) -> SignMagnitude
        ensures { Means (p3109 self.now.width self.now.precision) result }
    {
        let sign = 1 << (self.width - 1);
        SignMagnitude {
            width: self.width,
            magnitudes: Layout {
                precision: self.precision,
                least_exponent: self.least_exponent(),
                count: sign - 1,
            },
            nan: sign,
        }
    }
}

impl Format for P3109 {
    ghost meaning = { λ f. p3109 f.width f.precision };

    ghost lawful = { λ f. p3109_lawful f.width f.precision (f.wide, f.narrow, f.precise, f.short) };

    fn shape(&self) -> Shape {
        self.coding().shape()
    }

    fn decode(&self, code: u16) -> Result<Reading, Fault> {
        self.coding().decode(code)
    }

    fn encode(&self, reading: Reading) -> Result<u16, Fault> {
        self.coding().encode(reading)
    }
}
