// Compares the figures that the public P3109 reports print with what the formats answer.
#![tactic(auto)]

mod compare;
mod printed;
mod survey;
mod tables;

use anyhow::ensure;
use tables::Tally;

// The value tables are named by their report and format.
const FILES: [&str; 14] = [
    "v0.9.1-binary8p2.tsv",
    "v0.9.1-binary8p3.tsv",
    "v0.9.1-binary8p4.tsv",
    "v0.9.1-binary8p5.tsv",
    "v0.9.1-binary8p6.tsv",
    "v0.9.1-binary8p7.tsv",
    "v2023-binary8p3.tsv",
    "v2023-binary8p4.tsv",
    "v2023-binary8p5.tsv",
    "v3.0.2-binary4p3.tsv",
    "v3.0.2-binary8p3.tsv",
    "v3.0.2-binary8p4.tsv",
    "extremes.tsv",
    "counts.tsv",
];

fn run(rt: &HostRuntime) -> anyhow::Result<()> {
    let mut all = Tally::default();
    for file in &FILES {
        let tally = tables::compared(rt, file)?;
        println!(rt; "{file}: {tally}")?;
        all.join(&tally);
    }
    println!(rt; "all: {all}")?;
    ensure!(all.agreed >= all.rows, "a figure of the reports disagrees");
    Ok(())
}

fn main(rt: HostRuntime) -> anyhow::Result<()> {
    run(&rt)
}
