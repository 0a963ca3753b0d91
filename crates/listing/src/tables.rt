// The whole table of a format.
ghost use Rattle.std.specs.Prelude.{◌≡◌, ℕ, ◌^◌, ◌≤◌, ◌++◌, IfOk, string_bytes, MatchResult};
ghost use Rattle.formats.specs.AnyFormat.{meaning_of};
ghost use Rattle.names.specs.Names.{name_of};
ghost use Rattle.listing.specs.Tables.{Title, Complete, OnlyMemory};

use crate::numerals::Units;
use crate::rows::{Unlisted, row};
use formats::any::AnyFormat;
use formats::format::Format;
use names::name;
use std::alloc::{AllocError, Global};

// The format's name with its width K, its precision P, its least exponent q and its largest finite
// value M.
#[tactic(auto, using(crate::proofs::NumeralLaws::units_decimal))]
pub fn title(heap: Global, format: &AnyFormat) -> Result<String, AllocError>
    ensures { IfOk result (λ s. Title (name_of format.now) (meaning_of format.now) (string_bytes s)) }
{
    let shape = format.shape();
    let largest = Units {
        negative: false,
        units: shape.largest,
    };
    let name = name(heap, format)?;
    format!(in heap;
        "{name} K={} P={} q={} M={largest}",
        shape.width, shape.precision, shape.least_exponent
    )
}

// The lines of all codes, in their order.
pub fn table<F: Format>(heap: Global, format: &F) -> Result<Vec<String>, Unlisted>
    ensures { MatchResult result (λ v. Complete string_bytes (F.Format.meaning format.now) v.items) OnlyMemory }
{
    lines(heap, format, code_count(format))
}

// How many codes a format has.
fn code_count<F: Format>(format: &F) -> u32
    ensures { (result ≡ 2 ^ (F.Format.meaning format.now).width) × (result ≤ 65536) }
{
    1 << format.shape().width
}

// The lines of the codes below `count`, which is how many there are. A `for`: no lemma of the library
// reads what `try_collect` answers, and it was not proved.
fn lines<F: Format>(heap: Global, format: &F, count: u32) -> Result<Vec<String>, Unlisted>
    requires { (count ≡ 2 ^ (F.Format.meaning format.now).width) × (count ≤ 65536) }
    ensures { MatchResult result (λ v. Complete string_bytes (F.Format.meaning format.now) v.items) OnlyMemory }
{
    let mut lines = Vec::new(heap);
    for code in 0..count {
        lines.push(row(heap, format, code as u16)?)?;
    }
    Ok(lines)
}
