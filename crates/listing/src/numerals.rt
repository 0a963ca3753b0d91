// Numbers as text.
ghost use Rattle.std.specs.Prelude.{◌≡◌, ◌^◌, ◌<◌, ◌≤◌, Some};
ghost use Rattle.listing.specs.Texts.{numeral_text, bits_text, places_after, number_after, units_text};

use std::fmt;

// A number in just `count` binary digits.
#[derive(Clone, Copy)]
struct Digits {
    number: u32,
    count: u8,
    ghost fits: { number < 2 ^ count },
    ghost short: { count ≤ 16 },
}

impl fmt::Display for Digits {
    ghost output = { λ d. Some (numeral_text 2 d.count d.number) };

    fn fmt<W: fmt::Write>(&self, f: &mut fmt::Formatter<W>) -> fmt::Result {
        // A width of 0 would write the digit of zero.
        if self.count == 0 {
            return Ok(());
        }
        let number = self.number;
        let count = usize::from(self.count);
        write!(f, "{number:0count$b}")
    }
}

// The bits of a code, with a line after the sign and before the fraction.
#[derive(Clone, Copy)]
pub(crate) struct Bits {
    pub(crate) code: u16,
    pub(crate) width: u8,
    pub(crate) precision: u8,
    ghost wide: { width ≤ 16 },
    ghost precise: { 2 ≤ precision },
    ghost short: { precision ≤ 12 },
    ghost known: { code < 2 ^ width },
}

impl fmt::Display for Bits {
    ghost output = { λ b. Some (bits_text b.width b.precision b.code) };

    fn fmt<W: fmt::Write>(&self, f: &mut fmt::Formatter<W>) -> fmt::Result {
        let code = u32::from(self.code);
        let fraction_bits = self.precision - 1;
        let exponent_bits = self.width.saturating_sub(self.precision);
        let sign = Digits {
            number: (code * 2) >> self.width,
            count: 1,
        };
        let exponent = Digits {
            number: (code >> fraction_bits) % (1 << exponent_bits),
            count: exponent_bits,
        };
        let fraction = Digits {
            number: code % (1 << fraction_bits),
            count: fraction_bits,
        };
        write!(f, "{sign}_{exponent}_{fraction}")
    }
}

// So many units of 2^-32 in decimal, with just the digits that there are.
#[derive(Clone, Copy)]
pub(crate) struct Units {
    pub(crate) negative: bool,
    pub(crate) units: u64,
}

impl fmt::Display for Units {
    ghost output = { λ u. Some (units_text u.negative u.units) };

    fn fmt<W: fmt::Write>(&self, f: &mut fmt::Formatter<W>) -> fmt::Result {
        let sign = if self.negative { "-" } else { "" };
        let whole = self.units >> 32;
        let (number, places) = decimals((self.units % (1 << 32)) as u32);
        write!(f, "{sign}{whole}.{number:0places$}")
    }
}

// The decimal digits of fraction / 2^32 as a whole number, and how many there are: n / 2^p is
// n × 5^p / 10^p.
#[tactic(auto, using(crate::proofs::NumeralLaws::five_room, crate::proofs::NumeralLaws::number_room))]
fn decimals(fraction: u32) -> (u128, usize)
    ensures { (result.0 ≡ number_after fraction) × (result.1 ≡ places_after fraction) }
{
    let zeros = fraction.trailing_zeros();
    let places = 32 - zeros;
    let number = (u128::from(fraction) >> zeros) * 5u128.pow(places);
    (number, places as usize)
}
