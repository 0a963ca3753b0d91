// Why a sheet ends before its last record.
ghost use Rattle.std.specs.Prelude.{◌≡◌};
ghost use Rattle.records.specs.declared.fault.RecordFault.{RecordFault};
ghost use Rattle.sheets.specs.declared.fault.SheetFault.TheVariants as faults;

use records::fault::RecordFault;
use records::kind;

#[derive(Clone, Copy, PartialEq, Eq)]
pub enum SheetFault {
    // 1 to 3 bytes are left, or the record's length is under 2 or passes the end.
    NotARecord,
    // The kind is not 1 to 5.
    NoSuchKind,
    // The sheet has over 65,536 bytes.
    TooLong,
    // The record is refused.
    InRecord(RecordFault),
}

impl From<RecordFault> for SheetFault {
    ghost from_gives = { λ f r. r ≡ faults.InRecord f };

    fn from(fault: RecordFault) -> SheetFault {
        SheetFault::InRecord(fault)
    }
}

impl From<kind::NoSuchKind> for SheetFault {
    ghost from_gives = { λ n r. r ≡ faults.NoSuchKind };

    fn from(_: kind::NoSuchKind) -> SheetFault {
        SheetFault::NoSuchKind
    }
}

// A fault, and the place in the sheet from which its own place counts: the record's first byte.
#[derive(Clone, Copy)]
pub struct Stop {
    pub place: usize,
    pub fault: SheetFault,
}
