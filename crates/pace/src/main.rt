// Adds many terms to sums, so that the instructions for a term can be counted.
#![tactic(auto)]

ghost use Rattle.std.specs.Prelude.{◌^◌, ◌<◌, ◌≤◌};
ghost use Rattle.std.specs.List.{AllByRecursion};
ghost use Rattle.pace.specs.Pace.{Within};

use anyhow::anyhow;
use formats::fault::Fault;
use formats::p3109::P3109;
use registers::register::Register;
use rounding::answers::{Mark, Saturation};
use rounding::rules::NearestTiesToEven;
use std::{array, env};
use sums::sum::Sum;
use terms::scaled::Scaled;

const TERMS: u32 = 100_000;

fn main(rt: HostRuntime) -> anyhow::Result<()> {
    run(&rt)
}

// What the arguments name, or all where they name none. The words are counted, since the formats of a
// dot depend on their number.
fn run(rt: &HostRuntime) -> anyhow::Result<()> {
    let mut words = 0u8;
    for word in env::args(rt)?.skip(1) {
        words = words.saturating_add(1);
        tell(rt, word.as_str(), words)?;
    }
    if words == 0 {
        for word in ["one", "eight", "dot"] {
            tell(rt, word, words)?;
        }
    }
    Ok(())
}

fn tell(rt: &HostRuntime, word: &str, words: u8) -> anyhow::Result<()> {
    match word {
        "one" => tell_sum(rt, "one sum", &added(TERMS)),
        "eight" => tell_sum(rt, "eight sums", &joined(&spread(TERMS))),
        "dot" => tell_dot(rt, words),
        _ => Err(anyhow!("the arguments are: one, eight, dot")),
    }
}

fn tell_sum(rt: &HostRuntime, title: &str, sum: &Sum) -> anyhow::Result<()> {
    let below = sum.is_negative();
    let digits = sum.magnitude().bit_length();
    println!(rt; "{title}: {TERMS} terms, negative: {below}, binary digits: {digits}")?;
    Ok(())
}

// What a register reads after a dot of 10,000 products, in the second format under rule 0 and mode 2.
// The precisions depend on the number of words, so that the compiler does not know them.
fn tell_dot(rt: &HostRuntime, words: u8) -> anyhow::Result<()> {
    let ((code, _), count) = dotted(words).map_err(|_| anyhow!("the products were refused"))?;
    println!(rt; "dot: {count} products, code: {code}")?;
    Ok(())
}

fn dotted(words: u8) -> Result<((u16, Mark), u32), Fault> {
    let x_format = P3109::new(8, words % 4 + 3)?;
    let y_format = P3109::new(8, words % 4 + 2)?;
    let mut register = Register::new();
    register.dot(&x_format, &y_format, -16, &codes())?;
    Ok(register.read(&y_format, &NearestTiesToEven, Saturation::OvfInf))
}

// Scattered codes of finite values, of both signs.
fn codes() -> [u8; 20_000] {
    array::from_fn(|i| {
        let size = 1 + (i.wrapping_mul(0x9e37_79b1) % (1 << 32) >> 16) % 126;
        (size + 128 * (i / 3 % 2)) as u8
    })
}

// The term of an index: scattered digits and places, and both signs in turn.
fn drawn(i: u32) -> Scaled
    ensures { result.place < 128 }
{
    let mixed = i.wrapping_mul(0x9e37_79b1);
    Scaled {
        negative: i % 2 == 1,
        digits: mixed >> 8,
        place: (mixed % 128) as u8,
    }
}

// The terms in one sum: the numbers that they are drawn from are counted, and are no indices. `Within`
// stands in three contracts and in no type, since it speaks of a count too.
fn added(count: u32) -> Sum
    requires { count ≤ 100000 }
    ensures { Within count result }
{
    let mut sum = Sum::zero();
    for i in 0..count {
        let t = drawn(i);
        sum.add_term(t.negative, t.digits, t.place);
    }
    sum
}

// The terms spread over eight sums, each of which then has its standing tested at each term.
fn spread(count: u32) -> [Sum; 8]
    requires { count ≤ 100000 }
    ensures { AllByRecursion (Within count) result }
{
    let mut sums = [Sum::zero(); 8];
    for i in 0..count {
        let t = drawn(i);
        sums[(i / 2 % 8) as usize].add_term(t.negative, t.digits, t.place);
    }
    sums
}

// Eight sums as one.
fn joined(sums: &[Sum; 8]) -> Sum
    requires { AllByRecursion (Within 100000) sums.now }
{
    let mut all = Sum::zero();
    for sum in sums {
        all.add_sum(sum);
    }
    all
}
