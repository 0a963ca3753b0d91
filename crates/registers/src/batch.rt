// Terms that go into a register together.
ghost use Rattle.std.specs.Prelude.{◌≡◌, ℕ, ◌+◌, ◌*◌, ◌^◌, ◌≤◌};
ghost use Rattle.formats.specs.Value.{Value};
ghost use Rattle.sums.specs.Exact.{plus};
ghost use Rattle.sums.specs.Sums.{value, size, size_of};

use sums::sum::Sum;

// Each is below 2^191 units of 2^-96.
pub(crate) trait Terms {
    ghost number: { Self → ℕ };

    ghost total: { Self → Value };

    fn count(&self) -> usize
        ensures { result ≡ number self.now };

    fn bring_to(&self, sum: &mut Sum)
        requires { size sum.old + number self.now * 2 ^ 191 ≤ 2 ^ 254 }
        ensures { value sum.new ≡ plus (value sum.old) (total self.now) };

    ghost bounded: { (x : Self) → size_of (total x) ≤ number x * 2 ^ 191 };
}

// How many terms, and their exact sum. It is no `Register`: a run may have more terms than one counts.
#[derive(Clone, Copy)]
pub(crate) struct Batch {
    pub(crate) count: usize,
    pub(crate) sum: Sum,
    ghost bounded: { size sum ≤ count * 2 ^ 191 },
}

impl Terms for Batch {
    ghost number = { λ b. b.count };

    ghost total = { λ b. value b.sum };

    ghost bounded = { λ b. b.bounded };

    fn count(&self) -> usize {
        self.count
    }

    fn bring_to(&self, sum: &mut Sum) {
        sum.add_sum(&self.sum);
    }
}
