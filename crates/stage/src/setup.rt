// A chain as one value: its rate, how many stages it has, and the list of their places.
ghost use Rattle.std.specs.Prelude.{◌≡◌, ◌≤◌, ◌<◌, take};
ghost use Rattle.stage.specs.Setup.{empty_setup, with_stage, used_of, next_place};

use crate::kind::Stage;
use memories::PLACES;

// The length of a list that says where the first place begins and where each place ends.
pub const ENDS: usize = PLACES + 1;

// A list place: a stage with its settings. It is a record so that more can be said of a place later.
#[derive(Clone, Copy, Debug, PartialEq)]
pub struct Slot {
    pub stage: Stage,
}

// A chain: its rate in frames a second, how many stages it has, and their places. The first `count` slots
// are its stages, and the others do not matter. A call refuses a count above 16. A list with its length
// beside it, since there is no heap and a chain is a value with room for 16 stages.
#[derive(Clone, Copy, Debug, PartialEq)]
pub struct Setup {
    pub rate: u32,
    pub count: usize,
    pub slots: [Slot; PLACES],
}

impl Setup {
    // A chain of no stages, at this rate.
    #[tactic(auto, unfolding(crate::specs::Setup::empty_setup))]
    pub fn empty(rate: u32) -> Setup
        ensures { result ≡ empty_setup rate }
    {
        let stage = Stage::VolumeControl { volume: 0 };
        Setup {
            rate,
            count: 0,
            slots: [Slot { stage }; PLACES],
        }
    }

    // The chain with one stage more, at its end. Where all 16 places are taken, the stage is not kept and
    // the count is 17, so that a call is refused.
    #[tactic(auto, unfolding(crate::specs::Setup::with_stage))]
    pub fn with(mut self, stage: Stage) -> Setup
        ensures { result ≡ with_stage self stage }
    {
        if self.count < PLACES {
            self.slots[self.count] = Slot { stage };
            self.count += 1;
        } else {
            self.count = PLACES + 1;
        }
        self
    }

    // How many places the chain uses: 16 at most.
    pub fn used(&self) -> usize
        ensures { result ≡ used_of self.now }
    {
        self.count.min(PLACES)
    }

    // The places that the chain uses.
    pub fn stages(&self) -> &[Slot]
        ensures { result.now ≡ take (used_of self.now) self.now.slots }
    {
        &self.slots[..self.used()]
    }
}

impl Stage {
    // The place after the stage at i and all that it owns, but no further than `end`.
    #[tactic(auto, unfolding(crate::specs::Setup::next_place, crate::specs::Holding::holding_of))]
    pub fn next_place(self, i: usize, end: usize) -> usize
        ensures { (result ≡ next_place self i end) × (result ≤ end) × (i < end → i < result) }
    {
        let owned = self.holding().owned;
        if owned < end.saturating_sub(i) {
            i + 1 + owned
        } else {
            end
        }
    }
}
