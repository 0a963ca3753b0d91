// The reports' tables, row by row.
use crate::printed::parted;
use crate::survey::{Survey, survey_of};
use crate::{compare, printed};
use formats::format::Format;
use formats::reading::Reading;
use names::from_name;
use std::{fmt, fs, io};

// How many rows were read, and how many of them agree.
#[derive(Clone, Copy, Default)]
pub(crate) struct Tally {
    pub(crate) rows: u32,
    pub(crate) agreed: u32,
}

impl fmt::Display for Tally {
    fn fmt<W: fmt::Write>(&self, f: &mut fmt::Formatter<W>) -> fmt::Result {
        write!(f, "{} of {} rows agree", self.agreed, self.rows)
    }
}

impl Tally {
    pub(crate) fn join(&mut self, other: &Tally) {
        self.rows = self.rows.saturating_add(other.rows);
        self.agreed = self.agreed.saturating_add(other.agreed);
    }

    fn note(&mut self, rt: &HostRuntime, agrees: bool, row: &str) -> io::Result<()> {
        self.rows = self.rows.saturating_add(1);
        if !agrees {
            return println!(rt; "disagrees: {row}");
        }
        self.agreed = self.agreed.saturating_add(1);
        Ok(())
    }
}

// Compares the rows of a file, and prints those that disagree.
pub(crate) fn compared(rt: &HostRuntime, file: &str) -> io::Result<Tally> {
    let text = fs::read_to_string(rt, file)?;
    let mut tally = Tally::default();
    for row in text.lines() {
        tally.note(rt, agrees(file, row).unwrap_or(false), row)?;
    }
    Ok(tally)
}

// A row has three words.
fn agrees(file: &str, row: &str) -> Option<bool> {
    let (first, rest) = parted(row, '\t');
    let (second, third) = parted(rest, '\t');
    // A match: a table of functions would have to be searched by the name, and still need the last arm.
    match file {
        "extremes.tsv" => extreme_agrees(first, second, third),
        "counts.tsv" => count_agrees(first, second, third),
        _ => value_agrees(file, first, second, third),
    }
}

// A code in hexadecimal, `=` or `~`, and the value, in a file as `v2023-binary8p3.tsv`. A rounded
// value has six significant digits in the report of 2023, and else eight.
fn value_agrees(file: &str, code: &str, relation: &str, value: &str) -> Option<bool> {
    let (report, rest) = parted(file, '-');
    let (format, _) = parted(rest, '.');
    let reading = read(format, code)?;
    match relation {
        "=" => equals(&reading, value),
        "~" if report == "v2023" => near(&reading, value, 200_000),
        "~" => near(&reading, value, 20_000_000),
        _ => None,
    }
}

fn read(format: &str, code: &str) -> Option<Reading> {
    let code = u16::from_str_radix(code, 16).ok()?;
    from_name(format)?.decode(code).ok()
}

fn equals(reading: &Reading, value: &str) -> Option<bool> {
    match (reading, value) {
        (Reading::Nan, "NaN") => Some(true),
        (Reading::PositiveInfinity, "+Inf") => Some(true),
        (Reading::NegativeInfinity, "-Inf") => Some(true),
        (Reading::Finite(exact), _) => Some(compare::equals(&printed::decimal(value)?, exact)),
        _ => None,
    }
}

fn near(reading: &Reading, value: &str, parts: u32) -> Option<bool> {
    match reading {
        Reading::Finite(exact) => Some(compare::near(&printed::decimal(value)?, exact, parts)),
        _ => None,
    }
}

// A format's name, an extreme's name and its value.
fn extreme_agrees(format: &str, name: &str, value: &str) -> Option<bool> {
    let answer = surveyed(format)?.extreme(name)?;
    let number = printed::binary(value)?;
    Some(compare::equals(&number, &answer))
}

// A format's name, a kind's name and how many values there are of it.
fn count_agrees(format: &str, name: &str, count: &str) -> Option<bool> {
    let answer = surveyed(format)?.count(name)?;
    Some(count.parse::<u32>() == Ok(answer))
}

fn surveyed(format: &str) -> Option<Survey> {
    Some(survey_of(&from_name(format)?))
}
