// Figures worked out by hand, to which the definitions are held.
#![tactic(auto)]

ghost use Rattle.std.specs.Prelude.{◌≡◌, length};
ghost use Rattle.figures.specs.Figures.{figures, FiguresHold};

// How many figures there are: all of them hold.
pub fn count() -> u32
    ensures number { result ≡ length figures }
    ensures hold { FiguresHold }
{
    15
}
