// Pairs of codes in a run of bytes, x code then y code.
ghost use Rattle.std.specs.Prelude.{◌≡◌, ◌+◌, ◌*◌, ◌^◌, ◌<◌, length};
ghost use Rattle.registers.specs.PairReads.{bytes_of_pair, PairsOf, PairRead};

use crate::codes::Codes;
use formats::fault::Fault;
use formats::format::Format;

// How the x codes and the y codes lie.
#[derive(Clone, Copy)]
pub(crate) struct Pairs {
    pub(crate) x: Codes,
    pub(crate) y: Codes,
}

impl Pairs {
    pub(crate) fn of<F: Format, G: Format>(x_format: &F, y_format: &G) -> Pairs
        ensures { PairsOf (F.Format.meaning x_format.now) (G.Format.meaning y_format.now) result }
    {
        Pairs {
            x: Codes::of(x_format),
            y: Codes::of(y_format),
        }
    }

    pub(crate) fn bytes(&self) -> usize
        ensures { result ≡ bytes_of_pair self.now }
    {
        self.x.bytes() + self.y.bytes()
    }

    // The codes of a pair's bytes, which lie at a place; refused (2) at the first of them that is 2^K or more.
    pub(crate) fn read(&self, pair: &[u8], place: usize) -> Result<(u16, u16), Fault>
        requires { (length pair.now ≡ bytes_of_pair self.now) × (place + bytes_of_pair self.now < 2 ^ 64) }
        ensures { PairRead self.now pair.now place result }
    {
        let (x, y) = pair.split_at(self.x.bytes());
        let x = self.x.read(x, place)?;
        let y = self.y.read(y, place + self.x.bytes())?;
        Ok((x, y))
    }
}
