// Numbers in eight 32-bit words, the lowest first, modulo 2^256, and one way to add to them and to take from them.
ghost use Rattle.std.specs.Prelude.{◌≡◌, ◌+◌, ◌*◌, ◌^◌, ◌<◌, ◌≤◌};
ghost use Rattle.sums.specs.Words.{number, Moved, PassesOn, Balanced};

// Adds (low + 2^32 × high) × 2^(32 × at), or takes it away.
pub(crate) fn move_at(words: &mut [u32; 8], down: bool, at: usize, low: u32, high: u32)
    requires { at < 7 }
    ensures { Moved down words.old ((low + 2 ^ 32 * high) * 2 ^ (32 * at)) words.new }
{
    let (word, first) = moved(words[at], down, u64::from(low));
    words[at] = word;
    let (word, second) = moved(words[at + 1], down, u64::from(high) + first);
    words[at + 1] = word;
    if second != 0 {
        move_one(&mut words[at + 2..], down);
    }
}

// Adds another number, or takes it away.
pub(crate) fn move_all(words: &mut [u32; 8], down: bool, other: &[u32; 8])
    ensures { Moved down words.old (number other.now) words.new }
{
    let mut passed = 0;
    // No zip with `words.iter_mut()`: after it a proof knows nothing of the words.
    for (i, more) in other.iter().enumerate() {
        let (word, next) = moved(words[i], down, u64::from(*more) + passed);
        words[i] = word;
        passed = next;
    }
}

// Adds one, or takes one away, modulo what the words hold.
fn move_one(words: &mut [u32], down: bool)
    ensures { PassesOn down words.old words.new }
{
    for word in words.iter_mut() {
        let (next, passed) = moved(*word, down, 1);
        *word = next;
        if passed == 0 {
            return;
        }
    }
}

// A word with more added or taken away, and what is carried to the next, or borrowed from it.
fn moved(word: u32, down: bool, more: u64) -> (u32, u64)
    requires { more ≤ 2 ^ 32 }
    ensures { (Balanced down word more result.0 (result.1 * 2 ^ 32)) × (result.1 ≤ 1) }
{
    if down {
        let word = u64::from(word);
        if more <= word {
            ((word - more) as u32, 0)
        } else {
            ((word + (1 << 32) - more) as u32, 1)
        }
    } else {
        let sum = u64::from(word) + more;
        ((sum % (1 << 32)) as u32, sum / (1 << 32))
    }
}
