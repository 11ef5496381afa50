// What kira's `filter.rs` and `eq_filter.rs` share: the two frames that each remembers, the weights
// that g and k give, and the part of a step that renews the two frames. The two frames form one small
// record. `step` takes and gives it by value; `step_in_place` changes it in place, by calling `step`;
// `run`, which the filter and the EQ call, takes it by value and lends it on. Document 01 asks for the
// by-value form first and then for one thin function that is lent the record.
#![tactic(auto)]

ghost use Rattle.std.specs.Prelude.{◌≡◌};
ghost use Rattle.integrators.specs.Integrators.{weights_of, stepped_of};

use frame::Frame;

// The two frames that a filter or an EQ remembers, by kira's names.
#[derive(Clone, Copy, Debug, PartialEq)]
pub struct Integrators {
    pub ic1eq: Frame,
    pub ic2eq: Frame,
}

// What a step makes of its input, by kira's names: v1 is what a band-pass lets through, v2 a low-pass.
#[derive(Clone, Copy, Debug, PartialEq)]
pub struct Parts {
    pub v1: Frame,
    pub v2: Frame,
}

// What a step gives: the two parts, and the two frames remembered after it.
#[derive(Clone, Copy, Debug, PartialEq)]
pub struct Stepped {
    pub parts: Parts,
    pub after: Integrators,
}

// What a filter or an EQ gives: the frame that comes out, and the two frames remembered after it.
#[derive(Clone, Copy, Debug, PartialEq)]
pub struct Filtered {
    pub output: Frame,
    pub after: Integrators,
}

// kira's a1, a2 and a3, in f64 as the Rust works them out, or in f32 as it uses them.
#[derive(Clone, Copy, Debug, PartialEq)]
pub struct Weights<T> {
    pub a1: T,
    pub a2: T,
    pub a3: T,
}

// kira's a1, a2 and a3 out of g, the tangent, and k: a1 = 1 / (1 + g * (g + k)), a2 = g * a1 and
// a3 = g * a2.
pub fn weigh(g: f64, k: f64) -> Weights<f64>
    ensures { result ≡ weights_of g k }
{
    let a1 = 1.0 / (1.0 + g * (g + k));
    let a2 = g * a1;
    let a3 = g * a2;
    Weights { a1, a2, a3 }
}

fn step(memory: Integrators, input: Frame, weights: Weights<f32>) -> Stepped
    ensures { result ≡ stepped_of memory input weights }
{
    let Integrators { ic1eq, ic2eq } = memory;
    let Weights { a1, a2, a3 } = weights;
    let v3 = input.sub(ic2eq);
    let v1 = ic1eq.mul(a1).add(v3.mul(a2));
    let v2 = ic2eq.add(ic1eq.mul(a2)).add(v3.mul(a3));
    Stepped {
        parts: Parts { v1, v2 },
        after: Integrators {
            ic1eq: v1.mul(2.0).sub(ic1eq),
            ic2eq: v2.mul(2.0).sub(ic2eq),
        },
    }
}

pub(crate) fn step_in_place(memory: &mut Integrators, input: Frame, weights: Weights<f32>) -> Parts
    ensures { (result ≡ (stepped_of memory.old input weights).parts) × (memory.new ≡ (stepped_of memory.old input weights).after) }
{
    let Stepped { parts, after } = step(*memory, input, weights);
    *memory = after;
    parts
}

// One step: what v1 and v2 are for this input, and the two frames remembered after it. The weights
// have been narrowed to f32.
pub fn run(memory: Integrators, input: Frame, weights: Weights<f32>) -> Stepped
    ensures { result ≡ stepped_of memory input weights }
{
    let mut after = memory;
    let parts = step_in_place(&mut after, input, weights);
    Stepped { parts, after }
}
