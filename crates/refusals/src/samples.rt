// Refusal 10, about the samples of frames that top stage 0 has not run; with no stage, about all samples.
ghost use Rattle.std.specs.Prelude.{◌≡◌, ◌*◌, ◌≤◌, length};
ghost use Rattle.theory_tables.specs.First.{found_of};
ghost use Rattle.theory_tables.specs.Condition.{decide};
ghost use Rattle.refusals.specs.Refusals.{unrun_from, bad_sample, sample_answer};

use answer::{Answer, Refusal};
use float::finite::is_finite;
use memories::PLACES;

// The first sample from `from` on that is not finite.
fn first_bad(samples: &[f32], from: usize) -> Option<usize>
    requires { from ≤ length samples.now }
    ensures { result ≡ found_of (λ i. decide (bad_sample from samples.now i)) (length samples.now) }
{
    (from..samples.len()).find(|i| !is_finite(samples[*i]))
}

// How many frames top stage 0 has run; 0 where there is no stage.
fn run_by_first(tops: usize, progress: &[usize; PLACES]) -> usize
    ensures { 2 * result ≡ unrun_from tops progress.now }
{
    if tops == 0 { 0 } else { progress[0] }
}

// Check 10: `Sample` with the place of the first sample that is not finite, in a frame that top stage 0 has
// not run. `tops` is how many top stages there are (top_stages::Tops::of).
pub fn check_samples(tops: usize, samples: &[f32], progress: &[usize; PLACES]) -> Answer
    ensures { result ≡ sample_answer tops samples.now progress.now }
{
    let done = run_by_first(tops, progress);
    if samples.len() / 2 < done {
        return Ok(());
    }
    if let Some(at) = first_bad(samples, 2 * done) {
        return Err(Refusal::Sample(at));
    }
    Ok(())
}
