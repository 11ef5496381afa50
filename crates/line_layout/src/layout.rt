// Where the lines of stages lie in the store: in list order, each where the last one ends.
ghost use Rattle.std.specs.Prelude.{◌≡◌};
ghost use Rattle.line_layout.specs.Layout.{starts_of, needed_of, size_of};

use crate::lines::floats_of;
use memories::number_at;
use stage::setup::{ENDS, Setup};

// A chain and where its lines lie: where in the store the lines of each place start, and, last, where they
// all end. A step takes whatever starts it is given, so the type says nothing of them; `of` does.
#[derive(Clone, Copy, Debug, PartialEq)]
pub struct Layout {
    pub setup: Setup,
    pub starts: [usize; ENDS],
}

impl Layout {
    // The chain, laid out.
    #[tactic(auto, using(crate::proofs::LineStarts::start_more, stage::proofs::Listed::listed_more), unfolding(crate::specs::Layout::start_of))]
    pub fn of(setup: Setup) -> Layout
        ensures setup { result.setup ≡ setup }
        ensures starts { result.starts ≡ starts_of setup }
    {
        let mut starts = [0; ENDS];
        for (i, slot) in setup.slots.iter().enumerate() {
            starts[i + 1] = starts[i] + floats_of(setup.rate, slot.stage);
        }
        Layout { setup, starts }
    }

    // How many floats the lines of places i to e - 1 have, by the list of starts.
    #[tactic(auto, unfolding(crate::specs::Layout::size_of))]
    pub fn size_between(&self, i: usize, e: usize) -> usize
        ensures { result ≡ size_of self.now.starts i e }
    {
        number_at(&self.starts, e).saturating_sub(number_at(&self.starts, i))
    }
}

// How many floats the store must have: the sum of all lines.
#[tactic(auto, using(crate::proofs::LineStarts::starts_at))]
pub fn needed(setup: Setup) -> usize
    ensures { result ≡ needed_of setup }
{
    Layout::of(setup).starts[setup.used()]
}
