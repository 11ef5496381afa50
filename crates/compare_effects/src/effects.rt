// Functions of the crates `plain_effects`, `integrators` and `filters` for Rust to link. Each calls the
// function that it is named after and makes the same promise, in structs that C can read.
ghost use Rattle.std.specs.Prelude.{◌≡◌};
ghost use Rattle.plain_effects.specs.VolumeControl.{volume_of};
ghost use Rattle.plain_effects.specs.PanningControl.{panning_of};
ghost use Rattle.plain_effects.specs.Distortion.{distortion_of};
ghost use Rattle.integrators.specs.Integrators.{weights_of};
ghost use Rattle.filters.specs.Filter.{filter_of};
ghost use Rattle.filters.specs.EqFilter.{coefficients_of, eq_of};
ghost use Rattle.kind_codes.specs.Codes.{clip_at, mode_at, eq_kind_at};
ghost use Rattle.compare_effects.specs.Structs.{pair_in, pair_out, integrators_in, integrators_out, processed_out, weights_out, coefficients_out};

use filters::eq_filter::Coefficients;
use frame::Frame;
use integrators::{Filtered, Integrators, Weights};
use kind_codes::{clip_at, eq_kind_at, mode_at};

// A frame.
#[repr(C)]
#[derive(Clone, Copy)]
pub struct Pair {
    pub left: f32,
    pub right: f32,
}

// The two frames that a filter or an EQ remembers.
#[repr(C)]
#[derive(Clone, Copy)]
pub struct Memory {
    pub ic1eq: Pair,
    pub ic2eq: Pair,
}

// What a filter or an EQ gives: the frame that comes out, and the two frames remembered after it.
#[repr(C)]
#[derive(Clone, Copy)]
pub struct Processed {
    pub output: Pair,
    pub after: Memory,
}

// The weights a1, a2 and a3.
#[repr(C)]
#[derive(Clone, Copy)]
pub struct Three {
    pub a1: f64,
    pub a2: f64,
    pub a3: f64,
}

// An EQ's six coefficients.
#[repr(C)]
#[derive(Clone, Copy)]
pub struct Six {
    pub a1: f64,
    pub a2: f64,
    pub a3: f64,
    pub m0: f64,
    pub m1: f64,
    pub m2: f64,
}

impl From<Pair> for Frame {
    ghost from_gives = { λ pair frame. frame ≡ pair_in pair };

    fn from(pair: Pair) -> Frame {
        Frame {
            left: pair.left,
            right: pair.right,
        }
    }
}

impl From<Frame> for Pair {
    ghost from_gives = { λ frame pair. pair ≡ pair_out frame };

    fn from(frame: Frame) -> Pair {
        Pair {
            left: frame.left,
            right: frame.right,
        }
    }
}

impl From<Memory> for Integrators {
    ghost from_gives = { λ memory integrators. integrators ≡ integrators_in memory };

    fn from(memory: Memory) -> Integrators {
        Integrators {
            ic1eq: memory.ic1eq.into(),
            ic2eq: memory.ic2eq.into(),
        }
    }
}

impl From<Integrators> for Memory {
    ghost from_gives = { λ integrators memory. memory ≡ integrators_out integrators };

    fn from(integrators: Integrators) -> Memory {
        Memory {
            ic1eq: integrators.ic1eq.into(),
            ic2eq: integrators.ic2eq.into(),
        }
    }
}

impl From<Filtered> for Processed {
    ghost from_gives = { λ filtered processed. processed ≡ processed_out filtered };

    fn from(filtered: Filtered) -> Processed {
        Processed {
            output: filtered.output.into(),
            after: filtered.after.into(),
        }
    }
}

impl From<Weights<f64>> for Three {
    ghost from_gives = { λ weights three. three ≡ weights_out weights };

    fn from(weights: Weights<f64>) -> Three {
        Three {
            a1: weights.a1,
            a2: weights.a2,
            a3: weights.a3,
        }
    }
}

impl From<Coefficients> for Six {
    ghost from_gives = { λ coefficients six. six ≡ coefficients_out coefficients };

    fn from(coefficients: Coefficients) -> Six {
        Six {
            a1: coefficients.a1,
            a2: coefficients.a2,
            a3: coefficients.a3,
            m0: coefficients.m0,
            m1: coefficients.m1,
            m2: coefficients.m2,
        }
    }
}

// `plain_effects::volume_control::process`: one frame, its volume in whole dB.
#[unsafe(no_mangle)]
pub extern "C" fn sedhavil_volume_control(input: Pair, volume: i32) -> Pair
    ensures { result ≡ pair_out (volume_of volume (pair_in input)) }
{
    plain_effects::volume_control::process(input.into(), volume).into()
}

// `plain_effects::panning_control::process`: one frame.
#[unsafe(no_mangle)]
pub extern "C" fn sedhavil_panning_control(input: Pair, panning: f32) -> Pair
    ensures { result ≡ pair_out (panning_of panning (pair_in input)) }
{
    plain_effects::panning_control::process(input.into(), panning).into()
}

// `plain_effects::distortion::process`: one frame, its kind by the number of `kind_codes::clip_at`.
#[unsafe(no_mangle)]
pub extern "C" fn sedhavil_distortion(input: Pair, kind: u32, drive: i32, mix: f32) -> Pair
    ensures { result ≡ pair_out (distortion_of (clip_at kind) drive mix (pair_in input)) }
{
    plain_effects::distortion::process(input.into(), clip_at(kind as u64), drive, mix).into()
}

// `filters::filter::process`: one frame, its mode by the number of `kind_codes::mode_at`.
#[unsafe(no_mangle)]
pub extern "C" fn sedhavil_filter(
    input: Pair,
    memory: Memory,
    mode: u32,
    g: f64,
    resonance: f64,
    mix: f32,
) -> Processed
    ensures { result ≡ processed_out (filter_of (mode_at mode) g resonance mix (integrators_in memory) (pair_in input)) }
{
    filters::filter::process(
        input.into(),
        memory.into(),
        mode_at(mode as u64),
        g,
        resonance,
        mix,
    )
    .into()
}

// `filters::eq_filter::process`: one frame, its kind by the number of `kind_codes::eq_kind_at`.
#[unsafe(no_mangle)]
pub extern "C" fn sedhavil_eq_filter(
    input: Pair,
    memory: Memory,
    kind: u32,
    g: f64,
    q: f64,
    gain: i32,
) -> Processed
    ensures { result ≡ processed_out (eq_of (eq_kind_at kind) g q gain (integrators_in memory) (pair_in input)) }
{
    filters::eq_filter::process(
        input.into(),
        memory.into(),
        eq_kind_at(kind as u64),
        g,
        q,
        gain,
    )
    .into()
}

// `integrators::weigh`: a1, a2 and a3 out of g and k.
#[unsafe(no_mangle)]
pub extern "C" fn sedhavil_weigh(g: f64, k: f64) -> Three
    ensures { result ≡ weights_out (weights_of g k) }
{
    integrators::weigh(g, k).into()
}

// `Coefficients::calculate` of `filters::eq_filter`, its kind by the number of `kind_codes::eq_kind_at`.
#[unsafe(no_mangle)]
pub extern "C" fn sedhavil_coefficients(kind: u32, g: f64, q: f64, gain: i32) -> Six
    ensures { result ≡ coefficients_out (coefficients_of (eq_kind_at kind) g q gain) }
{
    Coefficients::calculate(eq_kind_at(kind as u64), g, q, gain).into()
}
