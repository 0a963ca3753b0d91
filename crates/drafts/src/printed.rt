// Numbers as the reports print them.

// The value ±numerator / denominator × 10^tens × 2^twos.
#[derive(Clone, Copy)]
pub(crate) struct Number {
    pub(crate) negative: bool,
    pub(crate) numerator: u64,
    pub(crate) denominator: u64,
    pub(crate) tens: i32,
    pub(crate) twos: i16,
}

// As `-0.0009765625` or `2.3283064E-10`.
pub(crate) fn decimal(text: &str) -> Option<Number> {
    let (mantissa, power) = powered(text)?;
    let (negative, size) = signed(mantissa);
    let (whole, after) = parted(size, '.');
    let numerator = digits(digits(0, whole)?, after)?;
    let places = i32::try_from(after.len()).ok()?;
    Some(Number {
        negative,
        numerator,
        denominator: 1,
        tens: power.saturating_sub(places),
        twos: 0,
    })
}

// Whether the number is below zero, and its size.
fn signed(text: &str) -> (bool, &str) {
    text.strip_prefix('-')
        .map_or((false, text), |size| (true, size))
}

// The number before an `E` or `e`, and the power of ten after it.
fn powered(text: &str) -> Option<(&str, i32)> {
    match text.split_once(['E', 'e']) {
        Some((mantissa, power)) => Some((mantissa, power.parse::<i32>().ok()?)),
        None => Some((text, 0)),
    }
}

// The decimal digits of the text after those that have been read.
fn digits(before: u64, text: &str) -> Option<u64> {
    text.chars().try_fold(before, |all, c| {
        all.checked_mul(10)?.checked_add(u64::from(c.to_digit(10)?))
    })
}

// As `1*2^-32` or `31/16*2^-2`.
pub(crate) fn binary(text: &str) -> Option<Number> {
    let (size, power) = parted(text, '*');
    let twos = power.strip_prefix("2^")?.parse::<i16>().ok()?;
    let (numerator, denominator) = parted(size, '/');
    Some(Number {
        negative: false,
        // No `parse`, which takes a plus sign and wants a digit.
        numerator: digits(0, numerator)?,
        denominator: if denominator.is_empty() {
            1
        } else {
            digits(0, denominator)?
        },
        tens: 0,
        twos,
    })
}

// The text before the mark and after it, which is empty where there is no mark.
pub(crate) fn parted(text: &str, mark: char) -> (&str, &str) {
    text.split_once(mark).unwrap_or((text, ""))
}
