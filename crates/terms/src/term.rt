// A term of a sum.
ghost use Rattle.std.specs.Prelude.{◌≡◌, ℕ, ◌+◌, ◌*◌, ◌^◌, ◌<◌, ◌≤◌, false, pos, ◌+ℤ◌, unsigned_abs};
ghost use Rattle.formats.specs.Value.{finite};
ghost use Rattle.sums.specs.Exact.{plus};
ghost use Rattle.sums.specs.Sums.{value, size};
ghost use Rattle.terms.specs.Offers.{add_offer, pair_offer, product_offer, Offers};
ghost use Rattle.terms.specs.Readings.{units_of, factor_value, term_value, both_finite};
ghost use Rattle.terms.specs.Terms.{single, product};
ghost use Rattle.terms.specs.declared.term.Term.TheVariants.{Finite};

use crate::factor::{Factor, Small};
use crate::scale::Scale;
use crate::scaled::Scaled;
use formats::fault::Fault;
use formats::format::Format;
use sums::sum::Sum;

#[derive(Clone, Copy)]
pub enum Term {
    Nan,
    // True for the negative one.
    Infinite(bool),
    Finite(Scaled),
}

impl Term {
    // The reading of a code; refused (2) at a code of 2^K or more.
    pub fn single<F: Format>(format: &F, code: u16) -> Result<Term, Fault>
        ensures { Offers (add_offer (F.Format.meaning format.now) code) result }
    {
        Ok(of_one(Factor::read(format, code)?))
    }

    // X × Y × 2^scale of the readings of two codes; refused at a scale outside -32 to 31 (4), then at
    // a code of 2^K or more (2).
    pub fn product<F: Format, G: Format>(
        x_format: &F,
        y_format: &G,
        scale: i8,
        x: u16,
        y: u16,
    ) -> Result<Term, Fault>
        ensures { Offers (product_offer (F.Format.meaning x_format.now) (G.Format.meaning y_format.now) scale x y) result }
    {
        Term::pair(x_format, y_format, Scale::try_from(scale)?, x, y)
    }

    // The product at a scale that is known to be in range.
    pub fn pair<F: Format, G: Format>(
        x_format: &F,
        y_format: &G,
        scale: Scale,
        x: u16,
        y: u16,
    ) -> Result<Term, Fault>
        ensures { Offers (pair_offer (F.Format.meaning x_format.now) (G.Format.meaning y_format.now) scale.power x y) result }
    {
        let x = Factor::read(x_format, x)?;
        let y = Factor::read(y_format, y)?;
        Ok(of_two(x, y, scale))
    }

    // Adds the term to a sum.
    pub fn add_to(&self, sum: &mut Sum)
        requires { size sum.old + 2 ^ 191 ≤ 2 ^ 255 }
        ensures value { value sum.new ≡ plus (value sum.old) (term_value self.now) }
        ensures size { size sum.new ≤ size sum.old + 2 ^ 191 }
    {
        match self {
            Term::Nan => sum.add_nan(),
            Term::Infinite(negative) => sum.add_infinity(*negative),
            Term::Finite(term) => sum.add_term(term.negative, term.digits, term.place),
        }
    }
}

fn of_one(factor: Factor) -> Term
    ensures { term_value result ≡ single (factor_value factor) }
{
    match factor {
        Factor::Nan => Term::Nan,
        Factor::Infinite(negative) => Term::Infinite(negative),
        Factor::Finite(value) => Term::Finite(scaled(value)),
    }
}

fn scaled(small: Small) -> Scaled
    ensures { term_value (Finite result) ≡ single (finite (units_of small.value)) }
{
    let value = small.value;
    Scaled {
        negative: value.negative,
        digits: u32::from(value.significand),
        place: value.exponent.abs_diff(-96),
    }
}

// The product of two factors times 2^scale.
fn of_two(x: Factor, y: Factor, scale: Scale) -> Term
    ensures { term_value result ≡ product (unsigned_abs (scale.power +ℤ pos 32)) (factor_value x) (factor_value y) }
{
    if let (Factor::Finite(x), Factor::Finite(y)) = (x, y) {
        return Term::Finite(multiplied(x, y, scale));
    }
    of_special(x, y)
}

// The product where one of the factors is not finite: an infinity with the sign of both, or NaN where
// one is NaN or zero.
fn of_special(x: Factor, y: Factor) -> Term
    ensures { both_finite x y ≡ false → (up : ℕ) → term_value result ≡ product up (factor_value x) (factor_value y) }
{
    let (Some(x), Some(y)) = (x.sign(), y.sign()) else {
        return Term::Nan;
    };
    Term::Infinite(x != y)
}

// The product of two values times 2^scale.
fn multiplied(x: Small, y: Small, scale: Scale) -> Scaled
    ensures { term_value (Finite result) ≡ product (unsigned_abs (scale.power +ℤ pos 32)) (finite (units_of x.value)) (finite (units_of y.value)) }
{
    let place = place_of(x, y, scale);
    let (x, y) = (x.value, y.value);
    Scaled {
        negative: x.negative != y.negative,
        digits: u32::from(x.significand) * u32::from(y.significand),
        place,
    }
}

// The place of a product: both exponents and the scale, each counted from -32.
fn place_of(x: Small, y: Small, scale: Scale) -> u8
    ensures { result ≡ unsigned_abs (x.value.exponent +ℤ pos 32) + unsigned_abs (y.value.exponent +ℤ pos 32) + unsigned_abs (scale.power +ℤ pos 32) }
{
    let (x, y) = (x.value.exponent, y.value.exponent);
    let place = i16::from(x) + i16::from(y) + i16::from(scale.power) + 96;
    place as u8
}
