// The finite magnitudes of a format: the codes from 0 up, with the size that each stands for.
ghost use Rattle.std.specs.Prelude.{◌≡◌, ℕ, ◌+◌, ◌-◌, ◌*◌, ◌/◌, ◌%◌, ◌^◌, ◌<◌, ◌≤◌, pos, negsuc, ◌+ℤ◌, ◌≤ℤ◌, unsigned_abs};
ghost use Rattle.layout.specs.Sizes.{bottom};
ghost use Rattle.layout.specs.Codes.{fine_size, InUnits, WholeShift};

use crate::Size;

// `count` codes from 0 up, of `precision` bits, the lowest place at 2^`least_exponent`; every size
// is below 2^32.
#[derive(Clone, Copy)]
pub struct Layout {
    pub precision: u8,
    pub least_exponent: i8,
    pub count: u16,
    ghost precise: { 2 ≤ precision },
    ghost short: { precision ≤ 12 },
    ghost deep: { negsuc 31 ≤ℤ least_exponent },
    ghost some: { 0 < count },
    ghost top: { bottom least_exponent + precision + (count - 1) / 2 ^ (precision - 1) ≤ 65 },
}

impl Layout {
    ghost use Rattle.layout.specs.Layouts.{layout_size, StandsIn, SizeAt, CodeFound, OneCode, PlacedIn};

    // The size at a code, or None past the last.
    pub fn at(&self, code: u16) -> Option<Size>
        ensures { SizeAt self.now code result }
    {
        (code < self.count).then(|| self.size(code))
    }

    // The size at the last code, in units of 2^-32.
    pub fn largest(&self) -> u64
        ensures { result ≡ layout_size self.now (self.now.count - 1) }
    {
        units(self.size(self.count - 1))
    }

    // The code that has the size, or None where no code has it.
    pub fn find(&self, size: Size) -> Option<u16>
        ensures { CodeFound self.now size result }
    {
        let code = self.code_of(size)?;
        (code < u32::from(self.count)).then(|| code as u16)
    }

    // The code that would have the size, were there codes without end.
    fn code_of(&self, size: Size) -> Option<u32>
        ensures { OneCode self.now size result }
    {
        if size.significand == 0 {
            return Some(0);
        }
        let place = self.place(size);
        let significand = shifted(size.significand, biased(size.exponent), place)?;
        let steps = place - biased(self.least_exponent);
        Some(u32::from(significand) + steps * u32::from(self.hidden()))
    }

    // The place of the last digit of a size with `precision` digits, or the least exponent if that
    // is greater, counted from -128.
    fn place(&self, size: Size) -> u32
        requires { 0 < size.significand }
        ensures { (PlacedIn self.now size result) × (result < 2 ^ 9) }
    {
        let above = biased(size.exponent) + size.significand.ilog2() + 1;
        above
            .saturating_sub(u32::from(self.precision))
            .max(biased(self.least_exponent))
    }

    // The leading bit that a code leaves out, 2^(precision - 1).
    fn hidden(&self) -> u16
        ensures { (result ≡ 2 ^ (self.now.precision - 1)) × ((result < 2 ^ 12) × (0 < result)) }
    {
        1 << (self.precision - 1)
    }

    // The size at a code: below 2^(precision - 1) the leading bit is not there.
    fn size(&self, code: u16) -> Size
        requires { code < self.now.count }
        ensures stands { StandsIn self.now code result }
        ensures small { InUnits result }
    {
        let hidden = self.hidden();
        if code < hidden {
            return Size {
                significand: code,
                exponent: self.least_exponent,
            };
        }
        Size {
            significand: hidden + code % hidden,
            exponent: self.least_exponent + (code / hidden - 1) as i8,
        }
    }
}

// The size in units of 2^-32.
fn units(size: Size) -> u64
    requires { InUnits size }
    ensures { result * 2 ^ 96 ≡ fine_size size }
{
    u64::from(size.significand) << (biased(size.exponent) - 96)
}

// The exponent counted from -128.
fn biased(exponent: i8) -> u32
    ensures { (result ≡ unsigned_abs (exponent +ℤ pos 128)) × (result < 2 ^ 8) }
{
    u32::from(exponent.abs_diff(i8::MIN))
}

// significand × 2^from as a whole number of 2^to, where it is one.
fn shifted(significand: u16, from: u32, to: u32) -> Option<u16>
    requires some { 0 < significand }
    requires fits { significand * 2 ^ from < 2 ^ (16 + to) }
    ensures { WholeShift significand from to result }
{
    if to <= from {
        return Some(significand << (from - to));
    }
    let unit = 1u16.checked_shl(to - from)?;
    let whole = significand.is_multiple_of(unit);
    whole.then_some(significand / unit)
}
