// A register: how many terms it has been brought, and their exact sum.
ghost use Rattle.std.specs.Prelude.{◌*◌, ◌^◌, ◌≤◌};
ghost use Rattle.sums.specs.Sums.{size};

use crate::batch::Terms;
use crate::products::products;
use formats::fault::Fault;
use formats::format::Format;
use rounding::answers::{Mark, Saturation};
use rounding::project::project;
use rounding::rule::RoundingRule;
use sums::sum::Sum;
use terms::term::Term;

// Each term is below 2^191 units of 2^-96.
#[derive(Clone, Copy, PartialEq, Eq)]
pub struct Register {
    count: u32,
    sum: Sum,
    ghost bounded: { size sum ≤ count * 2 ^ 191 },
}

impl Terms for Register {
    ghost use Rattle.sums.specs.Sums.{value};

    ghost number = { λ r. r.count };

    ghost total = { λ r. value r.sum };

    ghost bounded = { λ r. r.bounded };

    fn count(&self) -> usize {
        self.count as usize
    }

    #[inline(always)]
    fn bring_to(&self, sum: &mut Sum) {
        sum.add_sum(&self.sum);
    }
}

impl Register {
    ghost use Rattle.std.specs.Prelude.{◌≡◌, ℕ, ◌+◌, Decides};
    ghost use Rattle.rounding.specs.Rule.{Nearest};
    ghost use Rattle.terms.specs.Offers.{Offer, add_offer, product_offer};
    ghost use Rattle.registers.specs.Batches.{Comes, Grows};
    ghost use Rattle.registers.specs.Calls.{New, Brings, Answers, Joins, read_of};
    ghost use Rattle.registers.specs.Histories.{add, product, dot, read};
    ghost use Rattle.registers.specs.Laws.{EqualExactlyWhen, ReadsItsTerms, ReadsNearest, RegisterLaws, Recorded, RecordedJoin};
    ghost use Rattle.registers.specs.Runs.{dot_offer};

    // A register with no term.
    pub fn new() -> Register
        ensures { New result }
    {
        Register {
            count: 0,
            sum: Sum::zero(),
        }
    }

    // Makes the register new.
    pub fn clear(&mut self)
        ensures { New self.new }
    {
        *self = Register::new();
    }

    // Brings one term, the reading of a code. Refused: a code of 2^K or more (2), a full register (5).
    #[inline]
    pub fn add<F: Format>(&mut self, format: &F, code: u16) -> Result<(), Fault>
        ensures answers { Answers (add_offer (F.Format.meaning format.now) code) self.old result self.new }
        ensures recorded { Recorded (λ i. add i (F.Format.meaning format.now) code) self.old self.new }
    {
        self.enter(Term::single(format, code))
    }

    // Brings one term, X × Y × 2^scale of the readings of two codes. Refused: a scale outside -32 to 31
    // (4), a code of 2^K or more (2), a full register (5).
    pub fn product<F: Format, G: Format>(
        &mut self,
        x_format: &F,
        y_format: &G,
        scale: i8,
        x: u16,
        y: u16,
    ) -> Result<(), Fault>
        ensures answers { Answers (product_offer (F.Format.meaning x_format.now) (G.Format.meaning y_format.now) scale x y) self.old result self.new }
        ensures recorded { Recorded (λ i. product i (F.Format.meaning x_format.now) (G.Format.meaning y_format.now) scale x y) self.old self.new }
    {
        self.enter(Term::product(x_format, y_format, scale, x, y))
    }

    // Brings the product of each pair of a run of code bytes, all or none: x code then y code, a code in
    // one byte up to 8 bits and else in two, the lower byte first. Refused: a scale outside -32 to 31
    // (4), bytes that are not whole pairs (6), the first code of 2^K or more (2, at its first byte), a
    // count that would pass 4,294,967,295 (5).
    pub fn dot<F: Format, G: Format>(
        &mut self,
        x_format: &F,
        y_format: &G,
        scale: i8,
        run: &[u8],
    ) -> Result<(), Fault>
        ensures answers { Answers (dot_offer (F.Format.meaning x_format.now) (G.Format.meaning y_format.now) scale run.now) self.old result self.new }
        ensures recorded { Recorded (λ i. dot i (F.Format.meaning x_format.now) (G.Format.meaning y_format.now) scale run.now) self.old self.new }
    {
        self.enter(products(x_format, y_format, scale, run))
    }

    // Brings the terms of another register. Refused: a count that would pass 4,294,967,295 (5).
    pub fn join(&mut self, other: &Register) -> Result<(), Fault>
        ensures answers { Joins other.now self.old result self.new }
        ensures recorded { RecordedJoin other.now self.old self.new }
    {
        self.bring(other)
    }

    // Brings the register's own terms once more, as `join` can't be asked: it lends the register twice.
    // Refused: a count that would pass 4,294,967,295 (5).
    pub fn join_itself(&mut self) -> Result<(), Fault>
        ensures answers { Joins self.old self.old result self.new }
        ensures recorded { RecordedJoin self.old self.old self.new }
    {
        let own = *self;
        self.bring(&own)
    }

    // Whether two registers are equal in every field.
    #[tactic(auto, using(crate::proofs::RegisterLaws::decided))]
    pub fn equals(&self, other: &Register) -> bool
        ensures fields { Decides result (self.now ≡ other.now) }
        ensures terms { EqualExactlyWhen self.now other.now }
    {
        self == other
    }

    // The code and the mark of the sum's projection into the format, and the number of terms. Where the
    // rule goes to the nearer neighbour and the sum is within the finite ends, no finite value of the
    // format is nearer to it than the one that is read.
    pub fn read<F: Format, R: RoundingRule>(
        &self,
        format: &F,
        rule: &R,
        mode: Saturation,
    ) -> ((u16, Mark), u32)
        ensures reading { result ≡ read_of (F.Format.meaning format.now) (R.RoundingRule.table rule.now) mode self.now }
        ensures terms { ReadsItsTerms (F.Format.meaning format.now) (R.RoundingRule.table rule.now) mode self.now result }
        ensures laws { RegisterLaws }
        ensures nearest { Nearest (R.RoundingRule.table rule.now) → ReadsNearest (F.Format.meaning format.now) (R.RoundingRule.table rule.now) mode self.now }
        ensures recorded { Recorded (λ i. read i (F.Format.meaning format.now) (R.RoundingRule.table rule.now) mode) self.now self.now }
    {
        (project(format, rule, mode, &self.sum), self.count)
    }

    // Brings the terms that a call comes to, or passes its refusal on. Always put into the call, as
    // `bring` is: then a term stays in its three parts.
    #[inline(always)]
    fn enter<T: Terms + Copy>(&mut self, offered: Result<T, Fault>) -> Result<(), Fault>
        ensures { (o : Offer) → Comes T.number T.total o offered → Answers o self.old result self.new }
    {
        self.bring(&offered?)
    }

    #[inline(always)]
    fn bring<T: Terms>(&mut self, terms: &T) -> Result<(), Fault>
        ensures { Brings (T.number terms.now) (T.total terms.now) self.old result self.new }
    {
        let count = self.grown(terms.count()).ok_or(Fault::RegisterFull)?;
        terms.bring_to(&mut self.sum);
        self.count = count;
        Ok(())
    }

    // The count with more terms, if it does not pass 4,294,967,295.
    fn grown(&self, more: usize) -> Option<u32>
        ensures { Grows self.now.count more result }
    {
        self.count.checked_add(u32::try_from(more).ok()?)
    }
}
