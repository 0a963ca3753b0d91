// The interface that every rounding rule implements.
ghost use Rattle.std.specs.Prelude.{◌≡◌};
ghost use Rattle.rounding.specs.Rule.{Rule, Monotone, Nearest};

use crate::answers::Remainder;

pub trait RoundingRule {
    ghost table: { Self → Rule };

    // Whether the size goes to the next one away from zero, by the sign, the parity of the last place
    // and what is left below it.
    fn goes_away(&self, negative: bool, odd: bool, remainder: Remainder) -> bool
        ensures { result ≡ (table self.now).away negative odd remainder };

    // Whether an overflow goes to infinity and not to the finite end.
    fn overflows_to_infinity(&self, negative: bool) -> bool
        ensures { result ≡ (table self.now).overflows negative };

    // A larger remainder never turns "away" into "toward".
    ghost monotone: { (x : Self) → Monotone (table x) };
}

// A rule that goes to the nearer neighbour, and has its own word only at the half.
pub trait NearestRule: RoundingRule {
    ghost nearest: { (x : Self) → Nearest (Self.RoundingRule.table x) };
}
