// Why a record is refused.
use formats::fault::Fault;

// Places are counted from the record's first byte.
#[derive(Clone, Copy, PartialEq, Eq)]
pub enum RecordFault {
    // The body has not the length of its kind.
    BodyLength,
    // No register, rule or mode has the number at that offset.
    NoSuchNumber(usize),
    // The arithmetic refuses; its own place counts from that offset.
    Arithmetic(usize, Fault),
}
