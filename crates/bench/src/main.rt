// Reads a sheet from standard input, runs it, and prints its report.
#![tactic(auto)]

use anyhow::anyhow;
use reports::text::printed;
use std::io::{Read, Write};
use std::{env, io};

const HELP: &str = "bench: exact sums of small floats, rounded once

Reads a sheet of records from standard input, up to 65,536 bytes, and prints a line for each
reading: the record's number, the register, the code, the count of terms, and exact, low, high or
none. A fault ends the sheet with a line of its own: fault, its number, its layer and its place.

  bench < SHEET      run a sheet
  bench --help       say this

The status is 0 where the sheet was judged, fault or not, and 1 where reading or writing failed.
";

// One byte more than a sheet may have, which tells that it has too many.
const KEPT: u64 = 65_537;

fn main(rt: HostRuntime) -> anyhow::Result<()> {
    run(&rt)
}

fn run(rt: &HostRuntime) -> anyhow::Result<()> {
    match env::args(rt)?.nth(1) {
        None => {
            let sheet = input(rt)?;
            let report = printed(rt.alloc(), sheet.as_slice())?;
            print(rt, report.as_slice())
        }
        Some(word) if word.as_str() == "--help" => print(rt, HELP.as_bytes()),
        Some(_) => Err(anyhow!(
            "an argument that is not --help; the sheet is read from standard input"
        )),
    }
}

// Standard input to its end; what is past the first bytes is read and let go. Where there is no more, the
// end was seen, and is not asked for again: a terminal would wait for another.
fn input(rt: &HostRuntime) -> anyhow::Result<Vec<u8>> {
    let mut sheet = Vec::new(rt.alloc());
    let mut stdin = rt.stdin();
    stdin.by_ref().take(KEPT).read_to_end(&mut sheet)?;
    if sheet.len() as u64 == KEPT {
        io::copy(&mut stdin, &mut io::sink())?;
    }
    Ok(sheet)
}

// The whole text in one piece.
fn print(rt: &HostRuntime, text: &[u8]) -> anyhow::Result<()> {
    rt.stdout().write_all(text)?;
    Ok(())
}
