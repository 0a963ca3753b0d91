// A finite term.
ghost use Rattle.std.specs.Prelude.{◌*◌, ◌^◌, ◌<◌, ◌≤◌};

// ±digits × 2^place units of 2^-96, of a size below 2^95.
#[derive(Clone, Copy)]
pub struct Scaled {
    pub negative: bool,
    pub digits: u32,
    pub place: u8,
    ghost short: { digits < 2 ^ 24 },
    ghost low: { place ≤ 189 },
    ghost small: { digits * 2 ^ place < 2 ^ 191 },
}
