// The products of a run of pairs of codes.
ghost use Rattle.std.specs.Prelude.{◌≡◌, ℕ, ◌+◌, ◌*◌, ◌/◌, ◌%◌, ◌^◌, ◌<◌, ◌≤◌};
ghost use Rattle.registers.specs.Batches.{Gathers};
ghost use Rattle.registers.specs.PairReads.{PairsOf, whole_offer};
ghost use Rattle.registers.specs.Runs.{dot_offer};

use crate::batch::Batch;
use crate::pairs::Pairs;
use formats::fault::Fault;
use formats::format::Format;
use sums::sum::Sum;
use terms::scale::Scale;
use terms::term::Term;

// The formats and the scale stay apart, as callers have them: a struct would be made here alone.
// X × Y × 2^scale of each pair of codes, x code then y code. Refused: a scale outside -32 to 31 (4),
// bytes that are not whole pairs (6), the first code of 2^K or more (2, at its place).
pub(crate) fn products<F: Format, G: Format>(
    x_format: &F,
    y_format: &G,
    scale: i8,
    run: &[u8],
) -> Result<Batch, Fault>
    ensures { Gathers (dot_offer (F.Format.meaning x_format.now) (G.Format.meaning y_format.now) scale run.now) result }
{
    let scale = Scale::try_from(scale)?;
    let pairs = Pairs::of(x_format, y_format);
    if run.len() % pairs.bytes() != 0 {
        return Err(Fault::NotWholeCodes);
    }
    gathered(x_format, y_format, scale, run, pairs)
}

// The same of whole pairs, where the scale is in range.
#[tactic(auto, using(crate::proofs::RunLaws::walk_stands, crate::proofs::RunLaws::walk_all))]
fn gathered<F: Format, G: Format>(
    x_format: &F,
    y_format: &G,
    scale: Scale,
    run: &[u8],
    pairs: Pairs,
) -> Result<Batch, Fault>
    requires { PairsOf (F.Format.meaning x_format.now) (G.Format.meaning y_format.now) pairs }
    ensures { Gathers (whole_offer (F.Format.meaning x_format.now) (G.Format.meaning y_format.now) scale.power run.now) result }
{
    let mut sum = Sum::zero();
    for (i, pair) in run.chunks_exact(pairs.bytes()).enumerate() {
        let codes = pairs.read(pair, i * pairs.bytes());
        let (x, y) = codes?;
        let term = Term::pair(x_format, y_format, scale, x, y)?;
        // Mostly the term is finite, and then only its three parts go to the sum.
        match term {
            Term::Finite(term) => sum.add_term(term.negative, term.digits, term.place),
            _ => term.add_to(&mut sum),
        }
    }
    Ok(Batch {
        count: run.len() / pairs.bytes(),
        sum,
    })
}
