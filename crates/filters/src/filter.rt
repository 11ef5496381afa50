// kira's `filter.rs`. Its coefficients are worked out in f64 from the caller's g, the tangent that
// kira works out from the cutoff, and are narrowed where the Rust says `as f32`.
ghost use Rattle.std.specs.Prelude.{◌≡◌};
ghost use Rattle.filters.specs.Filter.{output_of, filter_of};

use crate::narrowed::run_narrowed;
use float::clamp::clamp_unit;
use frame::Frame;
use integrators::{Filtered, Integrators, Parts, Stepped, weigh};
use rounding::narrow::as_f32;

// kira's `FilterMode`: removes what is above the cutoff (low-pass), above and below it (band-pass),
// below it (high-pass) or around it (notch).
#[derive(Clone, Copy, Debug, PartialEq, Eq)]
pub enum FilterMode {
    LowPass,
    BandPass,
    HighPass,
    Notch,
}

// What the mode makes of the input and the two parts, before the mix.
fn output(mode: FilterMode, input: Frame, parts: Parts, k: f32) -> Frame
    ensures { result ≡ output_of mode input parts k }
{
    let Parts { v1, v2 } = parts;
    match mode {
        FilterMode::LowPass => v2,
        FilterMode::BandPass => v1,
        FilterMode::HighPass => input.sub(v1.mul(k)).sub(v2),
        FilterMode::Notch => input.sub(v1.mul(k)),
    }
}

// One frame through a filter: the frame that comes out, and what is remembered after it. g is the
// tangent that kira works out from the cutoff; resonance and mix are clamped to 0..1.
pub fn process(
    input: Frame,
    memory: Integrators,
    mode: FilterMode,
    g: f64,
    resonance: f64,
    mix: f32,
) -> Filtered
    ensures { result ≡ filter_of mode g resonance mix memory input }
{
    let k = 2.0 - 1.9 * clamp_unit(resonance);
    let Stepped { parts, after } = run_narrowed(memory, input, weigh(g, k));
    let wet = output(mode, input, parts, as_f32(k));
    Filtered {
        output: wet.mixed(input, mix),
        after,
    }
}
