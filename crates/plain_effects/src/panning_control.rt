// kira's `panning_control.rs`: a frame, panned.
ghost use Rattle.std.specs.Prelude.{◌≡◌};
ghost use Rattle.plain_effects.specs.PanningControl.{panning_of};

use frame::Frame;

// One frame panned, from -1 (left) to 1 (right); a panning equal to 0 returns the frame.
pub fn process(input: Frame, panning: f32) -> Frame
    ensures { result ≡ panning_of panning input }
{
    input.panned(panning)
}
