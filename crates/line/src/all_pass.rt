// kira's `all_pass.rs`, with its feedback of 0.5: the old float is read, then the new one is stored in
// its place, then the position moves on.
ghost use Rattle.std.specs.Prelude.{◌≡◌};
ghost use Rattle.line.specs.AllPass.{passed_of, pass_line_of};

use crate::floats::{float_at, put_float};
use crate::position::next_position;

// What an all-pass gives: its output, and the line's next position.
#[derive(Clone, Copy, Debug, PartialEq)]
pub struct Passed {
    pub output: f32,
    pub at: usize,
}

// One step of an all-pass on its line, at position `at`. Past the line's end the old float is NaN and
// nothing is stored.
pub fn process(line: &mut [f32], at: usize, input: f32) -> Passed
    ensures { (result ≡ passed_of input at line.old) × (line.new ≡ pass_line_of input at line.old) }
{
    let next = next_position(at, line.len());
    let buffer_output = float_at(line, at);
    put_float(line, at, input + buffer_output * 0.5);
    Passed {
        output: -input + buffer_output,
        at: next,
    }
}
