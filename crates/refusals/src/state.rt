// Refusals 6 to 9, about the state of a block: remembered positions, how many samples there are, and the
// progress of the top stages.
ghost use Rattle.std.specs.Prelude.{◌≡◌, ◌<◌};
ghost use Rattle.theory_tables.specs.First.{found_of};
ghost use Rattle.theory_tables.specs.Condition.{decide};
ghost use Rattle.stage.specs.Setup.{used_of};
ghost use Rattle.refusals.specs.Refusals.{lost_at, ahead_at, state_answer};

use answer::{Answer, Refusal};
use line_layout::lines::is_lost;
use memories::{ALL_POSITIONS, PLACE_POSITIONS, PLACES, number_at};
use stage::setup::Setup;

// Whether a remembered position of the stage at i is not on its line.
fn is_lost_at(setup: &Setup, positions: &[usize; ALL_POSITIONS], i: usize) -> bool
    requires { i < used_of setup.now }
    ensures { result ≡ decide (lost_at setup.now positions.now i) }
{
    let from = PLACE_POSITIONS * i;
    is_lost(
        setup.rate,
        setup.slots[i].stage,
        &positions[from..from + PLACE_POSITIONS],
    )
}

// The first place with a remembered position that is not on its line.
fn first_lost(setup: &Setup, positions: &[usize; ALL_POSITIONS]) -> Option<usize>
    ensures { result ≡ found_of (λ i. decide (lost_at setup.now positions.now i)) (used_of setup.now) }
{
    (0..setup.used()).find(|i| is_lost_at(setup, positions, *i))
}

// Whether top stage k is past the last frame, or ahead of the top stage before it.
fn is_ahead(frames: usize, progress: &[usize], k: usize) -> bool
    ensures { result ≡ decide (ahead_at frames progress.now k) }
{
    let done = number_at(progress, k);
    frames < done || (0 < k && number_at(progress, k - 1) < done)
}

// The first of `tops` top stages for which `is_ahead` says yes.
fn first_ahead(tops: usize, frames: usize, progress: &[usize]) -> Option<usize>
    ensures { result ≡ found_of (λ k. decide (ahead_at frames progress.now k)) tops }
{
    (0..tops).find(|k| is_ahead(frames, progress, *k))
}

// Checks 6 to 9: the first refusal that applies. `tops` is how many top stages there are
// (top_stages::Tops::of), `samples` how many samples the block has.
pub fn check_state(
    setup: &Setup,
    tops: usize,
    positions: &[usize; ALL_POSITIONS],
    samples: usize,
    progress: &[usize; PLACES],
) -> Answer
    ensures { result ≡ state_answer setup.now tops positions.now samples progress.now }
{
    if let Some(at) = first_lost(setup, positions) {
        return Err(Refusal::Position(at));
    }
    if samples % 2 == 1 {
        return Err(Refusal::Samples);
    }
    let frames = samples / 2;
    if 4096 < frames {
        return Err(Refusal::Frames);
    }
    if let Some(at) = first_ahead(tops, frames, progress) {
        return Err(Refusal::Progress(at));
    }
    Ok(())
}
