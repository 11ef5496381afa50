// Steps of top stages in a given order.
ghost use Rattle.std.specs.Prelude.{◌≡◌};
ghost use Rattle.chain.specs.Chain.{state};
ghost use Rattle.chain.specs.Block.{block, answer_given, carried};
ghost use Rattle.chain.specs.Run.{answer_on, leaves_of};

use crate::plan::Plan;
use answer::Refusal;
use memories::{Memories, PLACES};
use stage::setup::Setup;

// What an accepted call gives back: the memories and the progress after it. Of a refused call the caller
// still has what was passed in.
#[derive(Clone, Copy, Debug, PartialEq)]
pub struct Outcome {
    pub memories: Memories,
    pub progress: [usize; PLACES],
}

// Runs an order: each entry names a top stage, counted from 0, and runs it on its next frame. Where a
// refusal applies nothing runs, and samples, store, memories and progress stay as they were.
pub fn run(
    setup: Setup,
    samples: &mut [f32],
    memories: Memories,
    store: &mut [f32],
    progress: [usize; PLACES],
    order: &[usize],
) -> Result<Outcome, Refusal>
    ensures answer { answer_given result ≡ answer_on setup (state samples.old store.old memories.positions memories.floats progress) order.now }
    ensures leaves { block samples.new store.new (carried memories progress result)
        ≡ leaves_of setup (state samples.old store.old memories.positions memories.floats progress) order.now }
{
    let mut outcome = Outcome { memories, progress };
    let plan = Plan::accepted(setup, samples, store, &outcome, order)?;
    plan.advance_all(order, samples, store, &mut outcome);
    Ok(outcome)
}
