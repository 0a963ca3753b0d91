// A sum: NaN, an infinity, or a signed whole number of units of 2^-96.
ghost use Rattle.std.specs.Prelude.{◌≡◌, ◌+◌, ◌*◌, ◌^◌, ◌<◌, ◌≤◌, true, pos, Decides};
ghost use Rattle.formats.specs.Value.{nan, infinite, finite, signed, negated};
ghost use Rattle.sums.specs.Exact.{plus};
ghost use Rattle.sums.specs.Sums.{value, size, is_below_zero};
ghost use Rattle.sums.specs.Words.{number};

use crate::magnitude::Magnitude;
use crate::signed::Signed;

#[derive(Clone, Copy, PartialEq, Eq)]
pub enum Sum {
    NotANumber,
    PositiveInfinity,
    NegativeInfinity,
    Finite(Signed),
}

impl Sum {
    pub fn zero() -> Sum
        ensures { value result ≡ finite (pos 0) }
    {
        Sum::Finite(Signed::zero())
    }

    pub fn add_nan(&mut self)
        ensures { value self.new ≡ nan }
    {
        *self = Sum::NotANumber;
    }

    pub fn add_infinity(&mut self, negative: bool)
        ensures { value self.new ≡ plus (value self.old) (infinite negative) }
    {
        *self = match *self {
            Sum::NotANumber => Sum::NotANumber,
            Sum::PositiveInfinity if negative => Sum::NotANumber,
            Sum::NegativeInfinity if !negative => Sum::NotANumber,
            _ if negative => Sum::NegativeInfinity,
            _ => Sum::PositiveInfinity,
        };
    }

    // Adds ±digits × 2^place units. Three numbers, since a type of them would ask for a bound that a sum
    // does not need, as `Scaled` of the terms does.
    pub fn add_term(&mut self, negative: bool, digits: u32, place: u8)
        requires short { (digits < 2 ^ 24) × (place ≤ 189) }
        requires fits { size self.old + digits * 2 ^ place < 2 ^ 255 }
        ensures { value self.new ≡ plus (value self.old) (finite (signed negative (digits * 2 ^ place))) }
    {
        if let Sum::Finite(sum) = self {
            sum.add_digits(negative, digits, place);
        }
    }

    // Always put into its caller: a sum that was just copied then stays in registers.
    #[inline(always)]
    pub fn add_sum(&mut self, other: &Sum)
        requires { size self.old + size other.now < 2 ^ 255 }
        ensures { value self.new ≡ plus (value self.old) (value other.now) }
    {
        match other {
            Sum::NotANumber => self.add_nan(),
            Sum::PositiveInfinity => self.add_infinity(false),
            Sum::NegativeInfinity => self.add_infinity(true),
            Sum::Finite(other) => {
                if let Sum::Finite(sum) = self {
                    sum.add(other);
                }
            }
        }
    }

    pub fn negate(&mut self)
        requires { size self.old < 2 ^ 255 }
        ensures { value self.new ≡ negated (value self.old) }
    {
        *self = match self {
            Sum::NotANumber => Sum::NotANumber,
            Sum::PositiveInfinity => Sum::NegativeInfinity,
            Sum::NegativeInfinity => Sum::PositiveInfinity,
            Sum::Finite(sum) => Sum::Finite(sum.negative()),
        };
    }

    // Whether the sum is finite and below zero.
    pub fn is_negative(&self) -> bool
        ensures { result ≡ is_below_zero self.now }
    {
        match self {
            Sum::Finite(sum) => sum.is_negative(),
            _ => false,
        }
    }

    // The size of a finite sum; zero where it is not finite.
    pub fn magnitude(&self) -> Magnitude
        ensures { number result.words ≡ size self.now }
    {
        match self {
            Sum::Finite(sum) => sum.size(),
            _ => Magnitude { words: [0; 8] },
        }
    }

    // Whether two sums have one value: then they are equal in every field.
    #[tactic(auto, using(crate::proofs::SumLaws::decided, crate::proofs::SumLaws::decided_value))]
    pub fn equals(&self, other: &Sum) -> bool
        ensures value { Decides result (value self.now ≡ value other.now) }
        ensures fields { Decides result (self.now ≡ other.now) }
    {
        self == other
    }
}
