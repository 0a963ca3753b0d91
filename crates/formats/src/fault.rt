// Why the arithmetic layer refuses.
#[derive(Clone, Copy, Debug, PartialEq, Eq)]
pub enum Fault {
    NoSuchFormat,
    // The place is the code's first byte within its run of bytes.
    CodeTooLarge(usize),
    ValueNotRepresentable,
    ScaleOutOfRange,
    RegisterFull,
    NotWholeCodes,
}
