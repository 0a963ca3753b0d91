// The projection: an exact value, rounded once into a format.
ghost use Rattle.std.specs.Prelude.{◌≡◌, ℕ, ◌+◌, ◌*◌, ◌^◌, ◌<◌, ◌≤◌, true, false};
ghost use Rattle.formats.specs.Meaning.{Coded};
ghost use Rattle.formats.specs.Readings.{fine};
ghost use Rattle.formats.specs.Value.{Value, infinite, finite, signed, finer};
ghost use Rattle.sums.specs.Sums.{value};
ghost use Rattle.sums.specs.Words.{number};
ghost use Rattle.rounding.specs.Answers.{Answers, IsPlaced, Settles, beside, cut_mark, cut_away};
ghost use Rattle.rounding.specs.Laws.{KeepsOrder, KeepsReadings, NearestFor};
ghost use Rattle.rounding.specs.Projection.{last_place, end, of_infinity, of_overflow, answered, projected};
ghost use Rattle.rounding.specs.Rule.{Nearest};

use crate::answers::{Mark, Saturation};
use crate::placed::Placed;
use crate::rule::RoundingRule;
use formats::format::Format;
use formats::reading::{Dyadic, Reading};
use sums::magnitude::Magnitude;
use sums::sum::Sum;

// The code and the mark of the sum's projection into the format. Where the rule goes to the nearer
// neighbour and the sum is within the finite ends, no reading of the format is nearer.
pub fn project<F: Format, R: RoundingRule>(
    format: &F,
    rule: &R,
    mode: Saturation,
    sum: &Sum,
) -> (u16, Mark)
    ensures projected { result ≡ projected (F.Format.meaning format.now) (R.RoundingRule.table rule.now) mode (value sum.now) }
    ensures order { KeepsOrder (F.Format.meaning format.now) (R.RoundingRule.table rule.now) mode }
    ensures readings { KeepsReadings (F.Format.meaning format.now) (R.RoundingRule.table rule.now) mode }
    ensures nearest { Nearest (R.RoundingRule.table rule.now) → NearestFor (F.Format.meaning format.now) (R.RoundingRule.table rule.now) mode (value sum.now) }
{
    let target = Target { format, rule, mode };
    let answer = target.answer(sum);
    (target.code(answer.reading), answer.mark)
}

// Where a value is rounded to, and how.
#[derive(Clone, Copy)]
struct Target<'a, F, R> {
    format: &'a F,
    rule: &'a R,
    mode: Saturation,
}

// A reading, and how it lies to the exact value.
#[derive(Clone, Copy)]
pub(crate) struct Answer {
    pub(crate) reading: Reading,
    pub(crate) mark: Mark,
}

impl<F: Format, R: RoundingRule> Target<'_, F, R> {
    // The code of a reading that the format has.
    fn code(&self, reading: Reading) -> u16
        ensures { (v : Value) → finer 96 v ≡ fine reading → Coded (F.Format.meaning self.now.format.now) v → result ≡ (F.Format.meaning self.now.format.now).encode v }
    {
        self.format.encode(reading).unwrap_or(0)
    }

    fn answer(&self, sum: &Sum) -> Answer
        ensures { Answers (value sum.now) (answered (F.Format.meaning self.now.format.now) (R.RoundingRule.table self.now.rule.now) self.now.mode (value sum.now)) result }
    {
        match sum {
            Sum::NotANumber => Answer {
                reading: Reading::Nan,
                mark: Mark::Unordered,
            },
            Sum::PositiveInfinity => self.of_infinity(false),
            Sum::NegativeInfinity => self.of_infinity(true),
            Sum::Finite(_) => self.of_size(&self.placed(sum)),
        }
    }

    fn of_infinity(&self, negative: bool) -> Answer
        ensures { Answers (infinite negative) (of_infinity (F.Format.meaning self.now.format.now) self.now.mode negative) result }
    {
        match self.mode {
            Saturation::SatFinite => Answer {
                reading: self.end(negative),
                mark: beside(negative),
            },
            Saturation::SatPropagate | Saturation::OvfInf => Answer {
                reading: infinity(negative),
                mark: Mark::Exact,
            },
        }
    }

    // The answer for a finite value that is so cut at its last place.
    fn of_size(&self, size: &Placed) -> Answer
        ensures { Settles (F.Format.meaning self.now.format.now) (R.RoundingRule.table self.now.rule.now) self.now.mode size.now result }
    {
        let away = self.goes_away(size);
        let significand = size.cut.digits + u32::from(away);
        if self.within(significand, size.place) {
            Answer {
                reading: finite(size.negative, significand, size.place),
                mark: size.mark(away),
            }
        } else {
            self.of_overflow(size.negative)
        }
    }

    // The answer for a finite value beyond the finite end.
    fn of_overflow(&self, negative: bool) -> Answer
        ensures { (n : ℕ) → (F.Format.meaning self.now.format.now).largest * 2 ^ 64 < n → Answers (finite (signed negative n)) (of_overflow (F.Format.meaning self.now.format.now) (R.RoundingRule.table self.now.rule.now) self.now.mode negative) result }
    {
        if self.mode == Saturation::OvfInf && self.rule.overflows_to_infinity(negative) {
            Answer {
                reading: infinity(negative),
                mark: beside(!negative),
            }
        } else {
            Answer {
                reading: self.end(negative),
                mark: beside(negative),
            }
        }
    }

    // Whether the rule goes away from zero, where anything is left below the cut.
    fn goes_away(&self, size: &Placed) -> bool
        ensures { result ≡ cut_away (R.RoundingRule.table self.now.rule.now) size.now.negative size.now.cut }
    {
        let odd = size.cut.digits % 2 == 1;
        size.cut
            .remainder
            .is_some_and(|left| self.rule.goes_away(size.negative, odd, left))
    }

    // The sign and the size of the sum, cut at its last place.
    fn placed(&self, sum: &Sum) -> Placed
        ensures { IsPlaced (F.Format.meaning self.now.format.now) (value sum.now) result }
    {
        let size = sum.magnitude();
        let place = self.last_place(&size);
        Placed {
            negative: sum.is_negative(),
            place,
            cut: size.cut(place),
        }
    }

    // The place of the last digit, counted from 2^-96: the greater of the least exponent and that which
    // leaves `precision` digits.
    fn last_place(&self, size: &Magnitude) -> u32
        ensures place { result ≡ last_place (F.Format.meaning self.now.format.now) (number size.now.words) }
        ensures bounds { (64 ≤ result) × (result < 256) }
        ensures fits { number size.now.words < 2 ^ (12 + result) }
    {
        let shape = self.format.shape();
        let least = (i32::from(shape.least_exponent) + 96).unsigned_abs();
        let full = size.bit_length().saturating_sub(u32::from(shape.precision));
        full.max(least)
    }

    // Whether significand × 2^(place - 96) is not beyond the finite end.
    fn within(&self, significand: u32, place: u32) -> bool
        requires { (64 ≤ place) × (significand ≤ 2 ^ 12) }
        ensures within { result ≡ true → (place < 128) × (significand * 2 ^ place ≤ (F.Format.meaning self.now.format.now).largest * 2 ^ 64) }
        ensures beyond { result ≡ false → (128 ≤ place → 0 < significand) → (F.Format.meaning self.now.format.now).largest * 2 ^ 64 < significand * 2 ^ place }
    {
        let largest = u128::from(self.format.shape().largest);
        place < 128 && u128::from(significand) << (place - 64) <= largest
    }

    // The largest finite value with a sign.
    fn end(&self, negative: bool) -> Reading
        ensures { fine result ≡ finer 96 (end (F.Format.meaning self.now.format.now) negative) }
    {
        let shape = self.format.shape();
        let digits = 64 - shape.largest.leading_zeros();
        let shift = digits.saturating_sub(u32::from(shape.precision));
        Reading::Finite(Dyadic {
            negative,
            significand: (shape.largest >> shift) as u16,
            exponent: shift as i8 - 32,
        })
    }
}

impl Placed {
    // The mark of a finite answer, which goes away from zero or not.
    fn mark(&self, away: bool) -> Mark
        ensures { result ≡ cut_mark self.now.negative self.now.cut away }
    {
        match self.cut.remainder {
            None => Mark::Exact,
            Some(_) => beside(self.negative != away),
        }
    }
}

fn infinity(negative: bool) -> Reading
    ensures { fine result ≡ infinite negative }
{
    if negative {
        Reading::NegativeInfinity
    } else {
        Reading::PositiveInfinity
    }
}

// The reading of ±significand × 2^(place - 96).
fn finite(negative: bool, significand: u32, place: u32) -> Reading
    requires { (significand ≤ 2 ^ 12) × ((64 ≤ place) × (place < 128)) }
    ensures { fine result ≡ finite (signed negative (significand * 2 ^ (place + 32))) }
{
    Reading::Finite(Dyadic {
        negative,
        significand: significand as u16,
        exponent: place as i8 - 96,
    })
}

// The mark of an answer above the value, or of one below it.
fn beside(above: bool) -> Mark
    ensures { result ≡ beside above }
{
    if above { Mark::High } else { Mark::Low }
}
