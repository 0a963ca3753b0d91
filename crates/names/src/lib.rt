// The names of the formats.
#![tactic(auto)]

ghost use Rattle.std.specs.Prelude.{◌≡◌, ℕ, ◌<◌, IfOk, string_bytes};
ghost use Rattle.names.specs.Names.{name_of, ByName, BySizes, ByDigits, with_sizes};

use formats::any::AnyFormat;
use formats::binary16::Binary16;
use formats::p3109::P3109;
use std::alloc::{AllocError, Global};

// `binary16`, or as `binary8p4` for width 8 and precision 4. No `FromStr` and no `Display`: an impl
// for `AnyFormat` would stand in `formats`, which knows no text.
pub fn from_name(name: &str) -> Option<AnyFormat>
    ensures { ByName name.now result }
{
    if name == "binary16" {
        return Some(AnyFormat::OfBinary16(Binary16));
    }
    let sizes = name.strip_prefix("binary")?;
    Some(AnyFormat::OfP3109(by_sizes(sizes.as_bytes())?))
}

// The format of `8p4`, its width and precision.
fn by_sizes(sizes: &[u8]) -> Option<P3109>
    ensures { BySizes sizes.now result }
{
    let [width, b'p', precision] = sizes else {
        return None;
    };
    by_digits(*width, *precision)
}

fn by_digits(width: u8, precision: u8) -> Option<P3109>
    ensures { ByDigits width precision result }
{
    let width = width.checked_sub(b'0')?;
    let precision = precision.checked_sub(b'0')?;
    P3109::new(width, precision).ok()
}

pub fn name(heap: Global, format: &AnyFormat) -> Result<String, AllocError>
    ensures { IfOk result (λ s. string_bytes s ≡ name_of format.now) }
{
    match format {
        AnyFormat::OfBinary16(_) => String::from_str(heap, "binary16"),
        AnyFormat::OfP3109(format) => with_sizes(heap, format.width, format.precision),
    }
}

// `binary` with a width and a precision of one digit each.
#[tactic(auto, using(std::proofs::lemmas::Fmt::decimal_digit))]
fn with_sizes(heap: Global, width: u8, precision: u8) -> Result<String, AllocError>
    requires { (width < 10) × (precision < 10) }
    ensures { IfOk result (λ s. string_bytes s ≡ with_sizes width precision) }
{
    format!(in heap; "binary{width}p{precision}")
}
