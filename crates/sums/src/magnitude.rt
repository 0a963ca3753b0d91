// The size of a finite sum, as the rounding needs it.
ghost use Rattle.std.specs.Prelude.{◌≡◌, ◌+◌, ◌/◌, ◌%◌, ◌^◌, ◌<◌, ◌≤◌, not, ◌==◌, slice_index};
ghost use Rattle.std.specs.List.{list_any};
ghost use Rattle.std.proofs.Props.{props};
ghost use Rattle.layout.specs.Digits.{digits};
ghost use Rattle.sums.specs.Cuts.{CutAt, left_below};
ghost use Rattle.sums.specs.Words.{number, Eight};

// A whole number in eight 32-bit words, the lowest first.
#[derive(Clone, Copy)]
pub struct Magnitude {
    pub words: [u32; 8],
    ghost eight: { Eight words } by { Prim.hlevel props },
}

// What is left of a number below a bit, where something is left.
#[derive(Clone, Copy, PartialEq, Eq)]
pub enum Remainder {
    BelowHalf,
    Half,
    AboveHalf,
}

// A number cut at a bit: the digits from there up, and what is left below.
#[derive(Clone, Copy)]
pub struct Cut {
    pub digits: u32,
    pub remainder: Option<Remainder>,
}

impl Magnitude {
    // How many binary digits the number has. `rposition` was tried, and what it answers was not proved.
    pub fn bit_length(&self) -> u32
        ensures { (result ≡ digits (number self.now.words)) × (result ≤ 256) }
    {
        let mut bits = 0;
        for (i, word) in self.words.iter().enumerate() {
            if *word != 0 {
                bits = 32 * i as u32 + 32 - word.leading_zeros();
            }
        }
        bits
    }

    // The number cut at a bit with at most twelve digits above it.
    pub fn cut(&self, place: u32) -> Cut
        requires place { (0 < place) × (place < 256) }
        requires fits { number self.now.words < 2 ^ (12 + place) }
        ensures { CutAt (number self.now.words) place result }
    {
        let place = place as u8;
        Cut {
            digits: self.digits_from(place),
            remainder: self.left_below(place),
        }
    }

    // What is left below a bit.
    #[tactic(auto, using(crate::proofs::CutLaws::left_is))]
    fn left_below(&self, place: u8) -> Option<Remainder>
        requires { 0 < place }
        ensures { result ≡ left_below (number self.now.words) place }
    {
        match (self.bit(place - 1), self.any_below(place - 1)) {
            (false, false) => None,
            (false, true) => Some(Remainder::BelowHalf),
            (true, false) => Some(Remainder::Half),
            (true, true) => Some(Remainder::AboveHalf),
        }
    }

    fn digits_from(&self, place: u8) -> u32
        requires { number self.now.words < 2 ^ (12 + place) }
        ensures { result ≡ number self.now.words / 2 ^ place }
    {
        let at = usize::from(place / 32);
        let low = self.word(at);
        let high = self.word(at + 1);
        (((high << 32) + low) >> (place % 32)) as u32
    }

    // Whether a bit is set.
    fn bit(&self, place: u8) -> bool
        ensures { result ≡ (number self.now.words / 2 ^ place % 2 == 1) }
    {
        (self.words[usize::from(place / 32)] >> (place % 32)) % 2 == 1
    }

    // Whether any bit below one is set.
    fn any_below(&self, place: u8) -> bool
        ensures { result ≡ not (number self.now.words % 2 ^ place == 0) }
    {
        let at = usize::from(place / 32);
        self.words[at] % (1 << (place % 32)) != 0 || any_set(&self.words[..at])
    }

    // The word at an index, and zero past the last one.
    fn word(&self, at: usize) -> u64
        ensures { (result ≡ slice_index self.now.words at) × (result < 2 ^ 32) }
    {
        self.words.get(at).map_or(0, |word| u64::from(*word))
    }
}

// Whether any of the words is not zero.
fn any_set(words: &[u32]) -> bool
    ensures { result ≡ list_any (λ w. not (w == 0)) words.now }
{
    words.iter().any(|word| *word != 0)
}
