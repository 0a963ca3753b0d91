// Codes in a run of bytes.
ghost use Rattle.std.specs.Prelude.{◌≤◌};

use formats::fault::Fault;
use formats::format::Format;

// How a format's codes lie in a run: in one byte up to a width of 8 bits, and else in two, the lower
// byte first.
#[derive(Clone, Copy)]
pub(crate) struct Codes {
    pub(crate) width: u8,
    ghost narrow: { width ≤ 16 },
}

impl Codes {
    ghost use Rattle.std.specs.Prelude.{◌≡◌, ◌+◌, ◌*◌, ◌^◌, ◌<◌, length, nat_lt};
    ghost use Rattle.registers.specs.Runs.{bytes_of, wide_at, code_at, CodesOf, CodeRead};

    pub(crate) fn of<F: Format>(format: &F) -> Codes
        ensures { CodesOf (F.Format.meaning format.now) result }
    {
        Codes {
            width: format.shape().width,
        }
    }

    pub(crate) fn bytes(&self) -> usize
        ensures { result ≡ bytes_of (wide_at self.now.width) }
    {
        if self.width > 8 { 2 } else { 1 }
    }

    // The code of its bytes, which lie at a place; refused (2) there if it is 2^K or more.
    pub(crate) fn read(&self, bytes: &[u8], place: usize) -> Result<u16, Fault>
        requires { length bytes.now ≡ bytes_of (wide_at self.now.width) }
        ensures { CodeRead self.now.width (code_at (wide_at self.now.width) bytes.now 0) place result }
    {
        let code = match *bytes {
            [low, high] => u16::from_le_bytes([low, high]),
            [code] => u16::from(code),
            _ => unreachable!(),
        };
        if u32::from(code) >= 1 << self.width {
            return Err(Fault::CodeTooLarge(place));
        }
        Ok(code)
    }
}
