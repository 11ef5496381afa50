// The step of both effects: a1, a2 and a3 are narrowed, as the Rust says by `as f32`, and the two
// remembered frames are renewed.
ghost use Rattle.std.specs.Prelude.{◌≡◌};
ghost use Rattle.filters.specs.Narrowed.{narrowed_of};

use frame::Frame;
use integrators::{Integrators, Stepped, Weights, run};
use rounding::narrow::as_f32;

pub(crate) fn run_narrowed(memory: Integrators, input: Frame, weights: Weights<f64>) -> Stepped
    ensures { result ≡ narrowed_of memory input weights }
{
    let narrowed = Weights {
        a1: as_f32(weights.a1),
        a2: as_f32(weights.a2),
        a3: as_f32(weights.a3),
    };
    run(memory, input, narrowed)
}
