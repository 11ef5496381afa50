// Rust's `abs`, its `clamp` at the bounds that kira uses, and its `max` with 0.01. A clamp gives its
// lower bound for a value below it, its upper bound for a value above it, and otherwise the value
// itself: so -0 and NaN stay as they are.
ghost use Rattle.std.specs.Prelude.{◌≡◌};
ghost use Rattle.std.specs.Float.{binary32};
ghost use Rattle.float.specs.Clamp.{abs_of, clamp_of, unit_of, signed_unit_of, hundredth_of};

use crate::floating::Floating;

// Rust's `f32::abs`: the value without its sign. NaN stays NaN.
#[tactic(auto, using(crate::proofs::Clamps::abs_is))]
pub fn abs(x: f32) -> f32
    ensures { result ≡ abs_of x }
{
    x.abs()
}

fn clamp<F: Floating>(x: F, lower: F, upper: F) -> F
    ensures { F.value result ≡ clamp_of (F.value lower) (F.value upper) (F.value x) }
{
    if x.is_below(lower) {
        return lower;
    }
    if upper.is_below(x) {
        return upper;
    }
    x
}

// `x.clamp(0.0, 1.0)`, by which kira clamps a mix and a resonance. -0 and NaN stay as they are.
pub fn clamp_unit<F: Floating>(x: F) -> F
    ensures { F.value result ≡ unit_of F.format (F.value x) }
{
    clamp(x, F::ZERO, F::ONE)
}

// `x.clamp(-1.0, 1.0)`, by which kira clamps a panning and clips hard. NaN stays NaN.
pub fn clamp_signed_unit(x: f32) -> f32
    ensures { result ≡ signed_unit_of binary32 x }
{
    clamp(x, -1.0, 1.0)
}

// kira's `q.max(MIN_Q)` for an EQ's q, where MIN_Q is 0.01. NaN gives 0.01.
pub fn at_least_hundredth(q: f64) -> f64
    ensures { result ≡ hundredth_of q }
{
    if q > 0.01 {
        return q;
    }
    0.01
}
