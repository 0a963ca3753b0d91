// How many values of each kind a format has, and the least and greatest of them.
use formats::any::AnyFormat;
use formats::format::Format;
use formats::reading::{Dyadic, Reading};

// Values of one kind that are above zero: how many there are, the least and the greatest.
#[derive(Clone, Copy, Default)]
pub(crate) struct Kind {
    pub(crate) count: u32,
    pub(crate) least: Option<Dyadic>,
    pub(crate) greatest: Option<Dyadic>,
}

#[derive(Clone, Copy, Default)]
pub(crate) struct Survey {
    pub(crate) total: u32,
    // Zero, the infinities and NaN.
    pub(crate) specials: u32,
    pub(crate) negatives: u32,
    pub(crate) negative_subnormals: u32,
    pub(crate) subnormal: Kind,
    pub(crate) normal: Kind,
}

impl Survey {
    // A match: a table by name would need a search and an answer where it finds nothing.
    pub(crate) fn extreme(&self, name: &str) -> Option<Dyadic> {
        match name {
            "minSubnormal" => self.subnormal.least,
            "maxSubnormal" => self.subnormal.greatest,
            "minNormal" => self.normal.least,
            "maxNormal" => self.normal.greatest,
            _ => None,
        }
    }

    pub(crate) fn count(&self, name: &str) -> Option<u32> {
        let positives = self.subnormal.count.saturating_add(self.normal.count);
        let ordinaries = positives.saturating_add(self.negatives);
        let subnormals = self
            .subnormal
            .count
            .saturating_add(self.negative_subnormals);
        match name {
            "total" => Some(self.total),
            "specials" => Some(self.specials),
            "ordinaries" => Some(ordinaries),
            "subnormals" => Some(subnormals),
            "normals" => Some(ordinaries.saturating_sub(subnormals)),
            "magnitudes" => Some(positives),
            "positiveSubnormals" => Some(self.subnormal.count),
            "positiveNormals" => Some(self.normal.count),
            _ => None,
        }
    }

    // A normal value has `precision` digits.
    fn note(&mut self, precision: u8, reading: Reading) {
        self.total = self.total.saturating_add(1);
        let value = match reading {
            Reading::Finite(value) if value.significand > 0 => value,
            _ => {
                self.specials = self.specials.saturating_add(1);
                return;
            }
        };
        let normal = value.significand.ilog2() + 1 >= u32::from(precision);
        if value.negative {
            self.negatives = self.negatives.saturating_add(1);
            if !normal {
                self.negative_subnormals = self.negative_subnormals.saturating_add(1);
            }
        } else if normal {
            self.normal.note(value);
        } else {
            self.subnormal.note(value);
        }
    }
}

impl Kind {
    fn note(&mut self, value: Dyadic) {
        self.count = self.count.saturating_add(1);
        let least = self.least.filter(|least| units(least) < units(&value));
        let greatest = self.greatest.filter(|most| units(most) > units(&value));
        self.least = Some(least.unwrap_or(value));
        self.greatest = Some(greatest.unwrap_or(value));
    }
}

// The size in units of 2^-32: a format's values are whole numbers of them, below 2^64.
fn units(value: &Dyadic) -> u128 {
    let places = u32::from(value.exponent.abs_diff(i8::MIN));
    u128::from(value.significand)
        .checked_shl(places.saturating_sub(96))
        .unwrap_or(u128::MAX)
}

// A format refuses the first code past its last.
pub(crate) fn survey_of(format: &AnyFormat) -> Survey {
    let precision = format.shape().precision;
    let mut all = Survey::default();
    for reading in (0..=u16::MAX).map_while(|code| format.decode(code).ok()) {
        all.note(precision, reading);
    }
    all
}
