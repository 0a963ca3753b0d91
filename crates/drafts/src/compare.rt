// A printed number beside a finite reading.
ghost use Rattle.std.specs.Prelude.{◌≡◌, ◌*◌, ◌^◌, true, IfSome};
ghost use Rattle.drafts.specs.Sides.{up, down, left_side, right_side, Equals, Near};

use crate::printed::Number;
use formats::reading::Dyadic;

// Whether the number is the value.
pub(crate) fn equals(number: &Number, value: &Dyadic) -> bool
    ensures { result ≡ true → Equals number.now value.now }
{
    sides(number, value).is_some_and(|(left, right)| number.negative == value.negative
        && left == right)
}

// Whether the number is off by at most one part of the value in `parts`.
pub(crate) fn near(number: &Number, value: &Dyadic, parts: u32) -> bool
    ensures { result ≡ true → Near number.now value.now parts }
{
    let Some((left, right)) = sides(number, value) else {
        return false;
    };
    left.abs_diff(right)
        .checked_mul(u128::from(parts))
        .is_some_and(|off| number.negative == value.negative && off <= right)
}

// Two whole numbers in the proportion of the two sizes.
fn sides(number: &Number, value: &Dyadic) -> Option<(u128, u128)>
    ensures { IfSome result (λ p. (p.0 ≡ left_side number.now value.now) × (p.1 ≡ right_side number.now value.now)) }
{
    let left = u128::from(number.numerator);
    let right = u128::from(value.significand).checked_mul(u128::from(number.denominator))?;
    let (left, right) = raised(left, right, 10, number.tens)?;
    let twos = i32::from(number.twos) - i32::from(value.exponent);
    raised(left, right, 2, twos)
}

// The left side times base^power, or the right side times base^-power.
fn raised(left: u128, right: u128, base: u128, power: i32) -> Option<(u128, u128)>
    ensures { IfSome result (λ p. (p.0 ≡ left * base ^ up power) × (p.1 ≡ right * base ^ down power)) }
{
    let factor = base.checked_pow(power.unsigned_abs())?;
    if power < 0 {
        Some((left, right.checked_mul(factor)?))
    } else {
        Some((left.checked_mul(factor)?, right))
    }
}
