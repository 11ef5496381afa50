// Rendering to the last frame, for callers who do not care about orders.
ghost use Rattle.std.specs.Prelude.{◌≡◌, []};
ghost use Rattle.chain.specs.Chain.{state};
ghost use Rattle.chain.specs.Block.{block, answer_given, carried};
ghost use Rattle.chain.specs.Run.{answer_on, rendered_of};

use crate::run::Outcome;
use crate::plan::Plan;
use answer::Refusal;
use memories::{Memories, PLACES};
use stage::setup::Setup;

// Runs every stage from where it stands to the last frame. It is refused where `run` refuses an empty
// order; samples, store, memories and progress then stay as they were.
pub fn render(
    setup: Setup,
    samples: &mut [f32],
    memories: Memories,
    store: &mut [f32],
    progress: [usize; PLACES],
) -> Result<Outcome, Refusal>
    ensures answer { answer_given result ≡ answer_on setup (state samples.old store.old memories.positions memories.floats progress) [] }
    ensures leaves { block samples.new store.new (carried memories progress result)
        ≡ rendered_of setup (state samples.old store.old memories.positions memories.floats progress) }
{
    let mut outcome = Outcome { memories, progress };
    let plan = Plan::accepted(setup, samples, store, &outcome, &[])?;
    plan.finish(samples, store, &mut outcome);
    Ok(outcome)
}
