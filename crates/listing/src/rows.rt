// The row of a code in a format's table.
ghost use Rattle.std.specs.Prelude.{◌≡◌, ℕ, ◌^◌, ◌<◌, ◌++◌, IfOk, Some, Ok, string_bytes, codes, MatchResult};
ghost use Rattle.formats.specs.Readings.{Decodes};
ghost use Rattle.formats.specs.declared.reading.Reading.TheVariants.{Finite};
ghost use Rattle.listing.specs.declared.rows.Unlisted.TheVariants.{Refused, NoMemory};
ghost use Rattle.listing.specs.Rows.{parts_of, Line, Lacks};
ghost use Rattle.listing.specs.Texts.{places_of, units_of, value_text};

use crate::numerals::{Bits, Units};
use formats::fault::Fault;
use formats::format::Format;
use formats::reading::{Dyadic, Reading};
use std::alloc::{AllocError, AllocFailed, Global};
use std::fmt;

// Why a row is not there.
#[derive(Debug, Drop)]
pub enum Unlisted {
    Refused(Fault),
    NoMemory,
}

impl From<Fault> for Unlisted {
    ghost from_gives = { λ f r. r ≡ Refused f };

    fn from(fault: Fault) -> Unlisted {
        Unlisted::Refused(fault)
    }
}

impl From<AllocError> for Unlisted {
    ghost from_gives = { λ _ r. r ≡ NoMemory };

    fn from(_error: AllocError) -> Unlisted {
        Unlisted::NoMemory
    }
}

impl<T: Drop> From<AllocFailed<T>> for Unlisted {
    ghost from_gives = { λ _ r. r ≡ NoMemory };

    fn from(_refused: AllocFailed<T>) -> Unlisted {
        Unlisted::NoMemory
    }
}

// The line of a code: the code, its bits, its significand and exponent, and its exact value.
pub fn row<F: Format>(heap: Global, format: &F, code: u16) -> Result<String, Unlisted>
    ensures { MatchResult result (λ s. Line (F.Format.meaning format.now) code (string_bytes s)) (Lacks (F.Format.meaning format.now) code) }
{
    let reading = format.decode(code)?;
    Ok(line(heap, format, code, reading)?)
}

// The line of a code with its reading.
fn line<F: Format>(
    heap: Global,
    format: &F,
    code: u16,
    reading: Reading,
) -> Result<String, AllocError>
    requires { Decodes (F.Format.meaning format.now) code (Ok reading) }
    ensures { IfOk result (λ s. Line (F.Format.meaning format.now) code (string_bytes s)) }
{
    let shape = format.shape();
    let digits = usize::from(shape.width).div_ceil(4);
    let bits = Bits {
        code,
        width: shape.width,
        precision: shape.precision,
    };
    let read = Read { reading };
    format!(in heap; "0x{code:0digits$x} {bits} {read}")
}

// The significand and the exponent, or a dash for each, and the exact value.
#[derive(Clone, Copy)]
struct Read {
    reading: Reading,
    ghost near: { places_of reading < 64 },
    ghost fits: { units_of reading < 2 ^ 64 },
}

impl fmt::Display for Read {
    ghost output = { λ x. Some (parts_of x.reading ++ (codes " " ++ value_text x.reading)) };

    fn fmt<W: fmt::Write>(&self, f: &mut fmt::Formatter<W>) -> fmt::Result {
        match self.reading {
            Reading::Nan => f.write_str("- - NaN"),
            Reading::PositiveInfinity => f.write_str("- - +Inf"),
            Reading::NegativeInfinity => f.write_str("- - -Inf"),
            Reading::Finite(value) => {
                let units = in_units(value);
                write!(f, "{} {} {units}", value.significand, value.exponent)
            }
        }
    }
}

fn in_units(value: Dyadic) -> Units
    requires { (places_of (Finite value) < 64) × (units_of (Finite value) < 2 ^ 64) }
    ensures { (result.negative ≡ value.negative) × (result.units ≡ units_of (Finite value)) }
{
    Units {
        negative: value.negative,
        units: u64::from(value.significand) << value.exponent.abs_diff(-32),
    }
}
