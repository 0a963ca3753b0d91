// Formats of one meaning cannot be told apart by what they answer.
#![tactic(auto)]

ghost use Rattle.std.specs.Prelude.{◌≡◌, ℕ, true, Result};
ghost use Rattle.formats.specs.Meaning.{Meaning};
ghost use Rattle.formats.specs.Readings.{Decodes};

use formats::fault::Fault;
use formats::format::Format;
use formats::reading::Reading;

// Whether two formats answer the same at a code: they do where they have one meaning.
pub fn decode_alike<F: Format, G: Format>(f: &F, g: &G, code: u16) -> bool
    ensures { F.Format.meaning f.now ≡ G.Format.meaning g.now → result ≡ true }
{
    decoded(f, code) == decoded(g, code)
}

// Whether two formats answer the same for a reading: they do where they have one meaning.
pub fn encode_alike<F: Format, G: Format>(f: &F, g: &G, reading: Reading) -> bool
    ensures { F.Format.meaning f.now ≡ G.Format.meaning g.now → result ≡ true }
{
    f.encode(reading) == g.encode(reading)
}

// What a format answers at a code: nothing else means the same.
fn decoded<F: Format>(f: &F, code: u16) -> Result<Reading, Fault>
    ensures is { Decodes (F.Format.meaning f.now) code result }
    ensures only { (m : Meaning) (s : Result Reading Fault) → Decodes m code s → F.Format.meaning f.now ≡ m → result ≡ s }
{
    f.decode(code)
}
