// The rounding rules.
ghost use Rattle.std.specs.Prelude.{◌≡◌, Bool, true, false};
ghost use Rattle.rounding.specs.Rules.{nearer, ties_to_even, ties_to_away, toward_positive, toward_negative, toward_zero, table_of, ByRuleByte};
ghost use Rattle.std.proofs.Common.{rules};

use crate::answers::Remainder;
use crate::rule::{NearestRule, RoundingRule};

// Each its own struct, and no pair one struct with a const parameter: an alias of that is no value in
// Rust, and `&TowardPositive` has to stay one.
#[derive(Clone, Copy)]
pub struct NearestTiesToEven;

#[derive(Clone, Copy)]
pub struct NearestTiesToAway;

#[derive(Clone, Copy)]
pub struct TowardPositive;

#[derive(Clone, Copy)]
pub struct TowardNegative;

#[derive(Clone, Copy)]
pub struct TowardZero;

// Whether a nearest rule goes away, by its word at the half.
fn nearer(remainder: Remainder, at_half: bool) -> bool
    ensures { result ≡ nearer remainder at_half }
{
    match remainder {
        Remainder::BelowHalf => false,
        Remainder::Half => at_half,
        Remainder::AboveHalf => true,
    }
}

impl RoundingRule for NearestTiesToEven {
    ghost table = { λ _. ties_to_even };

    ghost monotone = { Prim.search rules };

    fn goes_away(&self, _negative: bool, odd: bool, remainder: Remainder) -> bool {
        nearer(remainder, odd)
    }

    fn overflows_to_infinity(&self, _negative: bool) -> bool {
        true
    }
}

impl NearestRule for NearestTiesToEven {
    ghost nearest = { Prim.search rules };
}

impl RoundingRule for NearestTiesToAway {
    ghost table = { λ _. ties_to_away };

    ghost monotone = { Prim.search rules };

    fn goes_away(&self, _negative: bool, _odd: bool, remainder: Remainder) -> bool {
        nearer(remainder, true)
    }

    fn overflows_to_infinity(&self, _negative: bool) -> bool {
        true
    }
}

impl NearestRule for NearestTiesToAway {
    ghost nearest = { Prim.search rules };
}

impl RoundingRule for TowardPositive {
    ghost table = { λ _. toward_positive };

    ghost monotone = { Prim.search rules };

    fn goes_away(&self, negative: bool, _odd: bool, _remainder: Remainder) -> bool {
        !negative
    }

    fn overflows_to_infinity(&self, negative: bool) -> bool {
        !negative
    }
}

impl RoundingRule for TowardNegative {
    ghost table = { λ _. toward_negative };

    ghost monotone = { Prim.search rules };

    fn goes_away(&self, negative: bool, _odd: bool, _remainder: Remainder) -> bool {
        negative
    }

    fn overflows_to_infinity(&self, negative: bool) -> bool {
        negative
    }
}

impl RoundingRule for TowardZero {
    ghost table = { λ _. toward_zero };

    ghost monotone = { Prim.search rules };

    fn goes_away(&self, _negative: bool, _odd: bool, _remainder: Remainder) -> bool {
        false
    }

    fn overflows_to_infinity(&self, _negative: bool) -> bool {
        false
    }
}

// Any of the rules, by its rule byte.
#[derive(Clone, Copy)]
pub enum AnyRule {
    TiesToEven,
    TiesToAway,
    Upward,
    Downward,
    Chop,
}

// A byte that is no rule's.
#[derive(Clone, Copy, PartialEq, Eq)]
pub struct NoSuchRule;

// 0 NearestTiesToEven, 1 NearestTiesToAway, 2 TowardPositive, 3 TowardNegative, 4 TowardZero; no
// other byte is a rule's.
impl TryFrom<u8> for AnyRule {
    type Error = NoSuchRule;

    ghost try_from_gives = { ByRuleByte };

    fn try_from(byte: u8) -> Result<AnyRule, NoSuchRule> {
        match byte {
            0 => Ok(AnyRule::TiesToEven),
            1 => Ok(AnyRule::TiesToAway),
            2 => Ok(AnyRule::Upward),
            3 => Ok(AnyRule::Downward),
            4 => Ok(AnyRule::Chop),
            _ => Err(NoSuchRule),
        }
    }
}

// Two matches: one function that hands out the rule as a `dyn` value is not allowed here.
impl RoundingRule for AnyRule {
    ghost table = { table_of };

    ghost monotone = { Prim.search rules };

    fn goes_away(&self, negative: bool, odd: bool, remainder: Remainder) -> bool {
        match self {
            AnyRule::TiesToEven => NearestTiesToEven.goes_away(negative, odd, remainder),
            AnyRule::TiesToAway => NearestTiesToAway.goes_away(negative, odd, remainder),
            AnyRule::Upward => TowardPositive.goes_away(negative, odd, remainder),
            AnyRule::Downward => TowardNegative.goes_away(negative, odd, remainder),
            AnyRule::Chop => TowardZero.goes_away(negative, odd, remainder),
        }
    }

    fn overflows_to_infinity(&self, negative: bool) -> bool {
        match self {
            AnyRule::TiesToEven => NearestTiesToEven.overflows_to_infinity(negative),
            AnyRule::TiesToAway => NearestTiesToAway.overflows_to_infinity(negative),
            AnyRule::Upward => TowardPositive.overflows_to_infinity(negative),
            AnyRule::Downward => TowardNegative.overflows_to_infinity(negative),
            AnyRule::Chop => TowardZero.overflows_to_infinity(negative),
        }
    }
}
