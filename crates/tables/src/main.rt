// Prints what every code of the named formats reads as.
#![tactic(auto)]

use anyhow::{Context, anyhow};
use formats::any::AnyFormat;
use listing::tables::{table, title};
use names::from_name;
use std::env;
use std::io::{BufWriter, Write};
use std::process::ExitCode;

fn main(rt: HostRuntime) -> anyhow::Result<ExitCode> {
    match run(&rt) {
        Ok(()) => Ok(ExitCode::SUCCESS),
        Err(error) => {
            eprintln!(rt; "tables: {error}")?;
            Ok(ExitCode::FAILURE)
        }
    }
}

fn run(rt: &HostRuntime) -> anyhow::Result<()> {
    let formats = chosen(rt)?;
    let mut out = BufWriter::new(rt.alloc(), rt.stdout())?;
    let mut codes = 0usize;
    for format in formats.iter() {
        let lines = table(rt.alloc(), format).map_err(|_| anyhow!(
            "no memory is left for the table"
        ))?;
        writeln!(out, "{}", title(rt.alloc(), format)?)?;
        for line in lines.iter() {
            writeln!(out, "{line}")?;
        }
        codes = codes.saturating_add(lines.len());
    }
    let count = formats.len();
    writeln!(out, "codes read: {codes}, formats read: {count}")?;
    out.flush()?;
    Ok(())
}

// The formats that the arguments name, or every P3109 format where they name none.
fn chosen(rt: &HostRuntime) -> anyhow::Result<Vec<AnyFormat>> {
    let mut formats = Vec::new(rt.alloc());
    for argument in env::args(rt)?.skip(1) {
        let format = from_name(argument.as_str()).context(format_args!(
            "no format is named {argument}"
        ))?;
        formats.push(format)?;
    }
    if formats.is_empty() {
        // A for, since `push` may fail.
        for byte in 1..=u8::MAX {
            if let Ok(format) = AnyFormat::try_from(byte) {
                formats.push(format)?;
            }
        }
    }
    Ok(formats)
}
