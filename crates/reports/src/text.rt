// The text of a report, a newline after each line.
ghost use Rattle.std.specs.Prelude.{◌≡◌, ◌++◌, IfOk, OnOk};
ghost use Rattle.sheets.specs.Faults.{ended};
ghost use Rattle.sheets.specs.Sheets.{reported};
ghost use Rattle.reports.specs.Texts.{hexadecimal, mark_word, line_text, lines_text, end_text, report_text};

use crate::refusal::Refusal;
use itoa::{Buffer, Integer};
use rounding::answers::Mark;
use sheets::line::Line;
use sheets::run::{Report, run};
use std::alloc::{AllocError, Global};

// The text of a sheet's report.
pub fn printed(heap: Global, sheet: &[u8]) -> Result<Vec<u8>, AllocError>
    ensures { IfOk result (λ v. v.items ≡ report_text (reported sheet.now)) }
{
    let report = run(heap, sheet)?;
    text(heap, &report)
}

// The lines of a report, and the line of its fault, if it has one.
pub fn text(heap: Global, report: &Report) -> Result<Vec<u8>, AllocError>
    ensures { IfOk result (λ v. v.items ≡ lines_text report.now.lines.items ++ end_text (ended report.now.fault)) }
{
    let mut text = Vec::new(heap);
    write_lines(&mut text, report.lines.as_slice())?;
    if let Some(stop) = &report.fault {
        let line = Refusal::from(stop).to_string(heap)?;
        text.extend_from_slice(line.as_bytes())?;
    }
    Ok(text)
}

fn write_lines(text: &mut Vec<u8>, lines: &[Line]) -> Result<(), AllocError>
    ensures { OnOk result (text.new.items ≡ text.old.items ++ lines_text lines.now) }
{
    for line in lines {
        write_line(text, line)?;
    }
    Ok(())
}

// Written piece by piece: with write! in a Display, a record of readings.sheet takes some 150
// instructions more, on top of 433.
fn write_line(text: &mut Vec<u8>, line: &Line) -> Result<(), AllocError>
    ensures { OnOk result (text.new.items ≡ text.old.items ++ line_text line.now) }
{
    write_decimal(text, line.record)?;
    text.push(b' ')?;
    write_decimal(text, line.register)?;
    text.push(b' ')?;
    write_hexadecimal(text, line.code)?;
    text.push(b' ')?;
    write_decimal(text, line.count)?;
    text.push(b' ')?;
    text.extend_from_slice(mark_word(line.mark).as_bytes())?;
    text.push(b'\n')?;
    Ok(())
}

fn write_decimal<I: Integer>(text: &mut Vec<u8>, number: I) -> Result<(), AllocError>
    ensures { OnOk result (text.new.items ≡ text.old.items ++ I.text number) }
{
    text.extend_from_slice(Buffer::new().format(number).as_bytes())
}

fn write_hexadecimal(text: &mut Vec<u8>, code: u16) -> Result<(), AllocError>
    ensures { OnOk result (text.new.items ≡ text.old.items ++ hexadecimal code) }
{
    let mut digits = [0; 4];
    hex::encode_to_slice(code.to_be_bytes(), &mut digits).unwrap();
    text.extend_from_slice(&digits)
}

// The type is another crate's, so that a Display would take a type around it.
fn mark_word(mark: Mark) -> &'static str
    ensures { result.now ≡ mark_word mark }
{
    match mark {
        Mark::Exact => "exact",
        Mark::Low => "low",
        Mark::High => "high",
        Mark::Unordered => "none",
    }
}
