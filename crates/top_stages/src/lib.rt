// Where the top stages, those that no delay owns, stand in the list.
#![tactic(auto)]

ghost use Rattle.std.specs.Prelude.{◌≡◌};
ghost use Rattle.top_stages.specs.Tops.{tops_record};

use stage::setup::{ENDS, Setup};

// The top stages of a chain: where they stand, and how many there are (`n`). A list with its length beside
// it, since there is no heap.
#[derive(Clone, Copy, Debug, PartialEq, Eq)]
pub struct Tops {
    // the list place of each top stage, then where the last one ends; 0 beyond
    pub places: [usize; ENDS],
    pub n: usize,
}

impl Tops {
    // The top stages of a chain. Stages past the 16th have no place and are left out. How far each step of
    // the loop goes depends on the stage at its place, so it is no `for`.
    pub fn of(setup: Setup) -> Tops
        ensures { result ≡ tops_record setup }
    {
        let end = setup.used();
        let mut tops = Tops {
            places: [0; ENDS],
            n: 0,
        };
        let mut i = 0;
        while i < end {
            i = setup.slots[i].stage.next_place(i, end);
            tops.n += 1;
            tops.places[tops.n] = i;
        }
        tops
    }
}
