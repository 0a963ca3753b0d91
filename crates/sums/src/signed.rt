// Numbers in eight 32-bit words, the lowest first, as two's complement.
ghost use Rattle.std.specs.Prelude.{◌≡◌, ◌+◌, ◌*◌, ◌%◌, ◌^◌, ◌<◌, ◌≤◌, not, pos, ◌+ℤ◌, neg_ℤ, unsigned_abs};
ghost use Rattle.std.specs.Int.Signed.{non_neg};
ghost use Rattle.formats.specs.Value.{signed};
ghost use Rattle.std.proofs.Props.{props};
ghost use Rattle.sums.specs.Words.{Eight, number, twos_complement};

use crate::magnitude::Magnitude;
use crate::words::{move_all, move_at};

// No `Magnitude`, whose words say a number without a sign.
#[derive(Clone, Copy, PartialEq, Eq)]
pub struct Signed {
    pub words: [u32; 8],
    ghost eight: { Eight words } by { Prim.hlevel props },
}

impl Signed {
    pub(crate) fn zero() -> Signed
        ensures { twos_complement result.words ≡ pos 0 }
    {
        Signed { words: [0; 8] }
    }

    // Adds ±digits × 2^place.
    pub(crate) fn add_digits(&mut self, negative: bool, digits: u32, place: u8)
        requires short { (digits < 2 ^ 24) × (place ≤ 189) }
        requires fits { unsigned_abs (twos_complement self.old.words) + digits * 2 ^ place < 2 ^ 255 }
        ensures { twos_complement self.new.words ≡ twos_complement self.old.words +ℤ signed negative (digits * 2 ^ place) }
    {
        let at = usize::from(place / 32);
        let term = u64::from(digits) << (place % 32);
        let low = (term % (1 << 32)) as u32;
        let high = (term >> 32) as u32;
        move_at(&mut self.words, negative, at, low, high);
    }

    // Adds another number.
    pub(crate) fn add(&mut self, other: &Signed)
        requires { unsigned_abs (twos_complement self.old.words) + unsigned_abs (twos_complement other.now.words) < 2 ^ 255 }
        ensures { twos_complement self.new.words ≡ twos_complement self.old.words +ℤ twos_complement other.now.words }
    {
        move_all(&mut self.words, false, &other.words);
    }

    // Zero less the number.
    pub(crate) fn negative(&self) -> Signed
        ensures negated { (number result.words + number self.now.words) % 2 ^ 256 ≡ 0 }
        ensures signed { unsigned_abs (twos_complement self.now.words) < 2 ^ 255 → twos_complement result.words ≡ neg_ℤ (twos_complement self.now.words) }
    {
        let mut less = [0; 8];
        move_all(&mut less, true, &self.words);
        Signed { words: less }
    }

    pub(crate) fn is_negative(&self) -> bool
        ensures { result ≡ not (non_neg (twos_complement self.now.words)) }
    {
        self.words[7] >= 1 << 31
    }

    // The number without its sign.
    pub(crate) fn size(&self) -> Magnitude
        ensures { number result.words ≡ unsigned_abs (twos_complement self.now.words) }
    {
        let words = if self.is_negative() {
            self.negative().words
        } else {
            self.words
        };
        Magnitude { words }
    }
}
