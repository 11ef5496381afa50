// Whether a stage's settings are finite and in their ranges, by document 01's table of settings.
ghost use Rattle.std.specs.Prelude.{◌≡◌};
ghost use Rattle.stage.specs.Range.{tangent_of, unit_range, delay_range, in_range_of};

use crate::kind::Stage;
use float::finite::is_finite;

// An f32 from 0 to 1, -0 included.
fn is_unit(x: f32) -> bool
    ensures { result ≡ unit_range x }
{
    (0.0..=1.0).contains(&x)
}

// A tangent, from 2^-13 to 10^17.
fn is_tangent(g: f64) -> bool
    ensures { result ≡ tangent_of g }
{
    (0.0001220703125..=1e17).contains(&g)
}

// The settings of a delay, except how many stages it owns.
#[tactic(auto, using(crate::proofs::Contained::nat_le), unfolding(crate::specs::Range::delay_range))]
fn delay_in_range(frames: u32, feedback: i32, mix: f32) -> bool
    ensures { result ≡ delay_range frames feedback mix }
{
    (1..=480000).contains(&frames) & (feedback <= 24) & is_finite(mix)
}

impl Stage {
    // Whether every setting of the stage is finite and in its range. How many stages a delay owns is not
    // looked at: that is refusal 3's concern.
    #[tactic(auto, using(crate::proofs::Contained::int_le), unfolding(crate::specs::Range::in_range_of))]
    pub fn in_range(self) -> bool
        ensures { result ≡ in_range_of self }
    {
        match self {
            Stage::VolumeControl { volume } => volume <= 24,
            Stage::PanningControl { panning } => is_finite(panning),
            Stage::Distortion { drive, mix, .. } => { (-59..=24).contains(&drive) & is_finite(mix) }
            Stage::Filter {
                g,
                resonance,
                mix,
                ..
            } => is_tangent(g) & is_finite(resonance) & is_finite(mix),
            Stage::EqFilter { g, gain, q, .. } => {
                is_tangent(g) & (-24..=24).contains(&gain) & (0.0..=1000.0).contains(&q)
            }
            Stage::Reverb {
                feedback,
                damping,
                stereo_width,
                mix,
            } => is_unit(feedback) & is_unit(damping) & is_unit(stereo_width) & is_finite(mix),
            Stage::Delay {
                frames,
                feedback,
                mix,
                ..
            } => delay_in_range(frames, feedback, mix),
        }
    }
}
