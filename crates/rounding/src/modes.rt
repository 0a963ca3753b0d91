// The saturation modes by their mode bytes.
ghost use Rattle.rounding.specs.Rules.{ByModeByte};

use crate::answers::Saturation;

// A byte that is no mode's. No rule's error, so that `?` may tell them apart.
#[derive(Clone, Copy, PartialEq, Eq)]
pub struct NoSuchMode;

// 0 SatFinite, 1 SatPropagate, 2 OvfInf; no other byte is a mode's.
impl TryFrom<u8> for Saturation {
    type Error = NoSuchMode;

    ghost try_from_gives = { ByModeByte };

    fn try_from(byte: u8) -> Result<Saturation, NoSuchMode> {
        match byte {
            0 => Ok(Saturation::SatFinite),
            1 => Ok(Saturation::SatPropagate),
            2 => Ok(Saturation::OvfInf),
            _ => Err(NoSuchMode),
        }
    }
}
