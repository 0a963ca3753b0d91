// A term goes into a register alone.
ghost use Rattle.std.specs.Prelude.{◌≡◌};
ghost use Rattle.sums.specs.Sums.{value};
ghost use Rattle.terms.specs.Readings.{term_value};
ghost use Rattle.registers.specs.TermBound.{term_bounded};

use crate::batch::Terms;
use sums::sum::Sum;
use terms::term::Term;

impl Terms for Term {
    ghost number = { λ _. 1 };

    ghost total = { term_value };

    ghost bounded = { term_bounded };

    fn count(&self) -> usize {
        1
    }

    fn bring_to(&self, sum: &mut Sum) {
        self.add_to(sum);
    }
}
