// Cases of kira's enums by number, for callers whose language does not know the enum. A case's number
// is its place in the Rust's enum, counted from 0; a number past the end gives the last case. The numbers are
// the C face's and no part of the enums, so this is no `From<u64>` beside each enum.
#![tactic(auto)]

ghost use Rattle.std.specs.Prelude.{◌≡◌};
ghost use Rattle.kind_codes.specs.Codes.{clip_at, mode_at, eq_kind_at};

use filters::eq_filter::EqFilterKind;
use filters::filter::FilterMode;
use plain_effects::distortion::DistortionKind;

// 0 is a hard clip, and every other number a soft clip.
#[tactic(auto, unfolding(crate::specs::Codes::clip_at))]
pub fn clip_at(code: u64) -> DistortionKind
    ensures { result ≡ clip_at code }
{
    match code {
        0 => DistortionKind::HardClip,
        _ => DistortionKind::SoftClip,
    }
}

// 0 is a low-pass, 1 a band-pass, 2 a high-pass, and every other number a notch.
#[tactic(auto, unfolding(crate::specs::Codes::mode_at))]
pub fn mode_at(code: u64) -> FilterMode
    ensures { result ≡ mode_at code }
{
    match code {
        0 => FilterMode::LowPass,
        1 => FilterMode::BandPass,
        2 => FilterMode::HighPass,
        _ => FilterMode::Notch,
    }
}

// 0 is a bell, 1 a low shelf, and every other number a high shelf.
#[tactic(auto, unfolding(crate::specs::Codes::eq_kind_at))]
pub fn eq_kind_at(code: u64) -> EqFilterKind
    ensures { result ≡ eq_kind_at code }
{
    match code {
        0 => EqFilterKind::Bell,
        1 => EqFilterKind::LowShelf,
        _ => EqFilterKind::HighShelf,
    }
}
