// A refusal as its line tells it.
ghost use Rattle.std.specs.Prelude.{◌≡◌, ◌<◌, Some};
ghost use Rattle.formats.specs.Refusals.{number_of, place_of};
ghost use Rattle.sheets.specs.Faults.{sheet_refusal, stop_refusal};
ghost use Rattle.reports.specs.Refusals.{refusal_line, Tells};

use formats::fault::Fault;
use records::fault::RecordFault;
use sheets::fault::{SheetFault, Stop};
use std::fmt;

// Its number, the layer where it arose, and its place, which may exceed 64 bits.
#[derive(Clone, Copy)]
pub(crate) struct Refusal {
    number: u8,
    layer: &'static str,
    place: u128,
}

impl From<&Stop> for Refusal {
    ghost from_gives = { λ s r. Tells r (stop_refusal s.now) };

    fn from(stop: &Stop) -> Refusal {
        let refusal = in_record(&stop.fault);
        Refusal {
            place: stop.place as u128 + refusal.place,
            ..refusal
        }
    }
}

impl fmt::Display for Refusal {
    ghost output = { λ r. Some (refusal_line r) };

    fn fmt<W: fmt::Write>(&self, f: &mut fmt::Formatter<W>) -> fmt::Result {
        writeln!(f, "fault {} {} {}", self.number, self.layer, self.place)
    }
}

// The refusal of a fault, its place counted from the record's first byte.
fn in_record(fault: &SheetFault) -> Refusal
    ensures told { Tells result (sheet_refusal fault.now) }
    ensures bounded { result.place < 36893488147419103232 }
{
    let (number, layer, place) = match fault {
        SheetFault::NotARecord => (7, "sheet", 0),
        SheetFault::NoSuchKind => (8, "sheet", 2),
        SheetFault::TooLong => (11, "sheet", 0),
        SheetFault::InRecord(RecordFault::BodyLength) => (9, "record", 0),
        SheetFault::InRecord(RecordFault::NoSuchNumber(offset)) => (10, "record", *offset as u128),
        SheetFault::InRecord(RecordFault::Arithmetic(offset, fault)) => {
            let (number, place) = in_arithmetic(fault);
            (number, "arithmetic", *offset as u128 + place as u128)
        }
    };
    Refusal {
        number,
        layer,
        place,
    }
}

// The number of an arithmetic fault, and its place.
fn in_arithmetic(fault: &Fault) -> (u8, usize)
    ensures { (result.0 ≡ number_of fault.now) × (result.1 ≡ place_of fault.now) }
{
    match fault {
        Fault::NoSuchFormat => (1, 0),
        Fault::CodeTooLarge(place) => (2, *place),
        Fault::ValueNotRepresentable => (3, 0),
        Fault::ScaleOutOfRange => (4, 0),
        Fault::RegisterFull => (5, 0),
        Fault::NotWholeCodes => (6, 0),
    }
}
