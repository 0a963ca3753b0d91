// The power of two that a product is scaled by.
ghost use Rattle.terms.specs.Scales.{ScaleFits};
ghost use Rattle.std.proofs.Props.{props};

use formats::fault::Fault;

// From -32 to 31.
#[derive(Clone, Copy)]
pub struct Scale {
    pub power: i8,
    ghost fits: { ScaleFits power } by { Prim.hlevel props },
}

impl TryFrom<i8> for Scale {
    ghost use Rattle.terms.specs.Offers.{ScaleFound};

    type Error = Fault;

    // Refused (4) outside -32 to 31.
    ghost try_from_gives = { ScaleFound };

    fn try_from(power: i8) -> Result<Scale, Fault> {
        if (-32..=31).contains(&power) {
            Ok(Scale { power })
        } else {
            Err(Fault::ScaleOutOfRange)
        }
    }
}
