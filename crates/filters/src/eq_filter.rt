// kira's `eq_filter.rs`: three kinds. The six coefficients of each are worked out in f64 from the
// caller's g, by the operations of `Coefficients::calculate` in their order.
ghost use Rattle.std.specs.Prelude.{◌≡◌};
ghost use Rattle.filters.specs.EqFilter.{bell_of, low_shelf_of, high_shelf_of, coefficients_of, eq_of};

use crate::narrowed::run_narrowed;
use decibels::eq_amplitude;
use float::clamp::at_least_hundredth;
use frame::Frame;
use integrators::{Filtered, Integrators, Parts, Stepped, Weights, weigh};
use rounding::narrow::as_f32;
use rounding::sqrt::sqrt;

// kira's `EqFilterKind`: the gain applies around a frequency (bell), around and below it (low shelf) or
// around and above it (high shelf).
#[derive(Clone, Copy, Debug, PartialEq, Eq)]
pub enum EqFilterKind {
    Bell,
    LowShelf,
    HighShelf,
}

// kira's `Coefficients`: a1, a2 and a3 weigh the step, m0, m1 and m2 weigh the frame, v1 and v2.
#[derive(Clone, Copy, Debug, PartialEq)]
pub struct Coefficients {
    pub a1: f64,
    pub a2: f64,
    pub a3: f64,
    pub m0: f64,
    pub m1: f64,
    pub m2: f64,
}

fn bell(g: f64, q: f64, a: f64) -> Coefficients
    ensures { result ≡ bell_of g q a }
{
    let k = 1.0 / (q * a);
    let Weights { a1, a2, a3 } = weigh(g, k);
    Coefficients {
        a1,
        a2,
        a3,
        m0: 1.0,
        m1: k * (a * a - 1.0),
        m2: 0.0,
    }
}

fn low_shelf(g: f64, q: f64, a: f64) -> Coefficients
    ensures { result ≡ low_shelf_of g q a }
{
    let k = 1.0 / q;
    let Weights { a1, a2, a3 } = weigh(g / sqrt(a), k);
    Coefficients {
        a1,
        a2,
        a3,
        m0: 1.0,
        m1: k * (a - 1.0),
        m2: a * a - 1.0,
    }
}

fn high_shelf(g: f64, q: f64, a: f64) -> Coefficients
    ensures { result ≡ high_shelf_of g q a }
{
    let k = 1.0 / q;
    let Weights { a1, a2, a3 } = weigh(g * sqrt(a), k);
    Coefficients {
        a1,
        a2,
        a3,
        m0: a * a,
        m1: k * (1.0 - a) * a,
        m2: 1.0 - a * a,
    }
}

impl Coefficients {
    // kira's `Coefficients::calculate`, from g, the tangent that kira works out from the frequency. A q
    // below 0.01 counts as 0.01. The gain is in whole dB; beyond 24 dB either way, which a chain
    // refuses, its amplitude is NaN.
    pub fn calculate(kind: EqFilterKind, g: f64, q: f64, gain: i32) -> Self
        ensures { result ≡ coefficients_of kind g q gain }
    {
        let q = at_least_hundredth(q);
        let a = eq_amplitude(gain);
        match kind {
            EqFilterKind::Bell => bell(g, q, a),
            EqFilterKind::LowShelf => low_shelf(g, q, a),
            EqFilterKind::HighShelf => high_shelf(g, q, a),
        }
    }
}

// One frame through an EQ: the frame that comes out, and what is remembered after it. The settings are
// those of `Coefficients::calculate`.
pub fn process(
    input: Frame,
    memory: Integrators,
    kind: EqFilterKind,
    g: f64,
    q: f64,
    gain: i32,
) -> Filtered
    ensures { result ≡ eq_of kind g q gain memory input }
{
    let Coefficients {
        a1,
        a2,
        a3,
        m0,
        m1,
        m2,
    } = Coefficients::calculate(kind, g, q, gain);
    let Stepped {
        parts: Parts { v1, v2 },
        after,
    } = run_narrowed(memory, input, Weights { a1, a2, a3 });
    let dry = input.mul(as_f32(m0));
    let output = dry.add(v1.mul(as_f32(m1))).add(v2.mul(as_f32(m2)));
    Filtered { output, after }
}
