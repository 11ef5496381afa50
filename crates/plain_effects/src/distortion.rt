// kira's `distortion.rs`: a frame is multiplied by the drive, clipped, divided by the drive and mixed.
ghost use Rattle.std.specs.Prelude.{◌≡◌};
ghost use Rattle.plain_effects.specs.Distortion.{clip_of, distortion_of};

use decibels::amplitude;
use float::clamp::{abs, clamp_signed_unit};
use frame::Frame;

// kira's `DistortionKind`: a hard clip cuts a sample off at -1 and 1, a soft clip gives x / (1 + |x|).
#[derive(Clone, Copy, Debug, PartialEq, Eq)]
pub enum DistortionKind {
    HardClip,
    SoftClip,
}

// One sample, clipped.
fn clip(kind: DistortionKind, x: f32) -> f32
    ensures { result ≡ clip_of kind x }
{
    match kind {
        DistortionKind::HardClip => clamp_signed_unit(x),
        DistortionKind::SoftClip => x / (1.0 + abs(x)),
    }
}

// One frame through a distortion, its drive in whole dB. A chain refuses a drive at or below -60 dB,
// where the Rust divides 0 by 0, and one above 24 dB; here both give NaN.
pub fn process(input: Frame, kind: DistortionKind, drive: i32, mix: f32) -> Frame
    ensures { result ≡ distortion_of kind drive mix input }
{
    let amount = amplitude(drive);
    let driven = input.mul(amount);
    let clipped = Frame {
        left: clip(kind, driven.left),
        right: clip(kind, driven.right),
    };
    clipped.div(amount).mixed(input, mix)
}
