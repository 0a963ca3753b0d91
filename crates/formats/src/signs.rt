// Codes of a sign bit over magnitudes.
ghost use Rattle.std.specs.Prelude.{◌≡◌, ℕ, ◌-◌, ◌^◌, ◌<◌, ◌≤◌};
ghost use Rattle.formats.specs.Signs.{Joined};

use crate::fault::Fault;
use crate::format::Shape;
use crate::reading::{Dyadic, Reading};
use layout::{Layout, Size};

// A sign bit over the finite magnitudes and infinity's after them. NaN is answered by one code, and
// read from that and from all past infinity's.
#[derive(Clone, Copy)]
pub(crate) struct SignMagnitude {
    pub(crate) width: u8,
    pub(crate) magnitudes: Layout,
    pub(crate) nan: u16,
    ghost signed: { 0 < width },
    ghost narrow: { width ≤ 16 },
    ghost room: { magnitudes.count < 2 ^ (width - 1) },
}

impl SignMagnitude {
    ghost use Rattle.layout.specs.Layouts.{layout_size};
    ghost use Rattle.formats.specs.Meaning.{Meaning};
    ghost use Rattle.formats.specs.Readings.{Decodes, Encodes};
    ghost use Rattle.formats.specs.Signs.{LayoutCoded};
    ghost use Rattle.formats.specs.Codings.{Means};

    fn sign(&self) -> u16
        ensures is { result ≡ 2 ^ (self.now.width - 1) }
        ensures some { 0 < result }
        ensures most { result ≤ 2 ^ 15 }
    {
        1 << (self.width - 1)
    }

    pub(crate) fn shape(&self) -> Shape
        ensures width { result.width ≡ self.now.width }
        ensures precision { result.precision ≡ self.now.magnitudes.precision }
        ensures least { result.least_exponent ≡ self.now.magnitudes.least_exponent }
        ensures largest { result.largest ≡ layout_size self.now.magnitudes (self.now.magnitudes.count - 1) }
    {
        Shape {
            width: self.width,
            precision: self.magnitudes.precision,
            least_exponent: self.magnitudes.least_exponent,
            largest: self.magnitudes.largest(),
        }
    }

    pub(crate) fn decode(&self, code: u16) -> Result<Reading, Fault>
        ensures { (m : Meaning) → Means m self.now → Decodes m code result }
    {
        if u32::from(code) >= 1 << self.width {
            return Err(Fault::CodeTooLarge(0));
        }
        let sign = self.sign();
        let magnitude = code % sign;
        if code == self.nan || magnitude > self.magnitudes.count {
            return Ok(Reading::Nan);
        }
        // A match, since None has two answers.
        match self.magnitudes.at(magnitude) {
            Some(size) => Ok(Reading::Finite(join(code >= sign, size))),
            None if code >= sign => Ok(Reading::NegativeInfinity),
            None => Ok(Reading::PositiveInfinity),
        }
    }

    pub(crate) fn encode(&self, reading: Reading) -> Result<u16, Fault>
        ensures { (m : Meaning) → Means m self.now → Encodes m reading result }
    {
        match reading {
            Reading::Nan => Ok(self.nan),
            Reading::PositiveInfinity => Ok(self.magnitudes.count),
            Reading::NegativeInfinity => Ok(self.magnitudes.count + self.sign()),
            Reading::Finite(value) => self.finite_code(value).ok_or(Fault::ValueNotRepresentable),
        }
    }

    // The code of the value's magnitude, with the sign bit where the value is below zero.
    fn finite_code(&self, value: Dyadic) -> Option<u16>
        ensures { LayoutCoded (2 ^ (self.now.width - 1)) self.now.magnitudes value result }
    {
        let magnitude = self.magnitudes.find(Size {
            significand: value.significand,
            exponent: value.exponent,
        })?;
        if value.negative && magnitude != 0 {
            Some(magnitude + self.sign())
        } else {
            Some(magnitude)
        }
    }
}

// The size with a sign, but zero has none.
fn join(negative: bool, size: Size) -> Dyadic
    ensures { Joined negative size result }
{
    Dyadic {
        negative: negative && size.significand != 0,
        significand: size.significand,
        exponent: size.exponent,
    }
}
