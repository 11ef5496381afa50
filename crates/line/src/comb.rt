// kira's `comb.rs`: the old float is read, then the new one is stored in its place, then the
// position moves on.
ghost use Rattle.std.specs.Prelude.{◌≡◌};
ghost use Rattle.line.specs.Comb.{combed_of, comb_line_of};

use crate::floats::{float_at, put_float};
use crate::position::next_position;

// What a comb gives: its output, the line's next position, and the float that it remembers.
#[derive(Clone, Copy, Debug, PartialEq)]
pub struct Combed {
    pub output: f32,
    pub at: usize,
    pub filter_store: f32,
}

// One step of a comb on its line, at position `at`. Past the line's end the old float is NaN and
// nothing is stored.
pub fn process(
    line: &mut [f32],
    at: usize,
    filter_store: f32,
    input: f32,
    feedback: f32,
    damp: f32,
) -> Combed
    ensures { (result ≡ combed_of damp at filter_store line.old) × (line.new ≡ comb_line_of feedback damp input at filter_store line.old) }
{
    let next = next_position(at, line.len());
    let output = float_at(line, at);
    let stored = output * (1.0 - damp) + filter_store * damp;
    put_float(line, at, input + stored * feedback);
    Combed {
        output,
        at: next,
        filter_store: stored,
    }
}
