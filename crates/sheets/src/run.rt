// Running a sheet: record after record, to its end or to the first fault.
ghost use Rattle.std.specs.Prelude.{◌≤◌, length, IfOk};
ghost use Rattle.sheets.specs.Sheets.{reported};
ghost use Rattle.sheets.specs.Steps.{Whole, Heads, Steps, Follows, Reports};

use crate::bench::Bench;
use crate::fault::{SheetFault, Stop};
use crate::line::Line;
use records::kind::Kind;
use records::split::split;
use std::alloc::{AllocError, Global};

// The lines of a sheet's readings, and where it ended in a fault.
#[derive(Drop)]
pub struct Report {
    pub lines: Vec<Line>,
    pub fault: Option<Stop>,
}

// Runs a sheet on four new registers. A sheet of over 65,536 bytes is refused (11) whole.
pub fn run(heap: Global, sheet: &[u8]) -> Result<Report, AllocError>
    ensures { IfOk result (λ report. Reports (reported sheet.now) report.lines.items report.fault) }
{
    let mut lines = Vec::new(heap);
    let fault = if sheet.len() > 65_536 {
        Some(Stop {
            place: 65_536,
            fault: SheetFault::TooLong,
        })
    } else {
        follow(sheet, &mut lines)?
    };
    Ok(Report { lines, fault })
}

// Adds the lines of a sheet's readings, and answers where it ended in a fault. An iterator over the
// records would be no plainer: it would have to give each one's place too.
fn follow(sheet: &[u8], lines: &mut Vec<Line>) -> Result<Option<Stop>, AllocError>
    requires { length sheet.now ≤ 65536 }
    ensures { IfOk result (λ fault. Follows sheet.now lines.old.items fault lines.new.items) }
{
    let mut bench = Bench::new();
    let mut rest = sheet;
    let mut number = 0;
    while !rest.is_empty() {
        number += 1;
        match step(&mut bench, number, rest) {
            Ok((line, left)) => {
                lines.extend(line)?;
                rest = left;
            }
            Err(fault) => {
                let place = sheet.len() - rest.len();
                return Ok(Some(Stop { place, fault }));
            }
        }
    }
    Ok(None)
}

// Performs the record at the head of what is left, and answers its line, if it has one, and what is
// left after it.
fn step<'a>(
    bench: &mut Bench,
    number: u32,
    rest: &'a [u8],
) -> Result<(Option<Line>, &'a [u8]), SheetFault>
    ensures { Steps number rest.now bench.old result bench.new }
{
    let (kind, body, left) = head(rest)?;
    let record = split(kind, body)?;
    let line = bench.perform(number, &record)?;
    Ok((line, left))
}

// The kind and the body of the record at the head of what is left, and what is left after it.
fn head(rest: &[u8]) -> Result<(Kind, &[u8], &[u8]), SheetFault>
    ensures { Heads rest.now result }
{
    let (number, body, left) = whole(rest).ok_or(SheetFault::NotARecord)?;
    Ok((Kind::try_from(number)?, body, left))
}

// The number of its kind and the body of the record at the head of what is left, and what is left
// after it, if a whole record stands there.
fn whole(rest: &[u8]) -> Option<(u16, &[u8], &[u8])>
    ensures { Whole rest.now result }
{
    let [l0, l1, k0, k1, after @ ..] = rest else {
        return None;
    };
    let length = usize::from(u16::from_le_bytes([*l0, *l1])).checked_sub(2)?;
    let (body, left) = after.split_at_checked(length)?;
    Some((u16::from_le_bytes([*k0, *k1]), body, left))
}
