// What stages remember besides their lines: how much, and which part each kind uses. Every list place
// has room for a stage of any kind.
#![tactic(auto)]

ghost use Rattle.std.specs.Prelude.{◌≡◌, get_or};
ghost use Rattle.memories.specs.Memories.{zero_memories};
ghost use Rattle.memories.specs.Kinds.{remembered, remember};

use frame::Frame;
use integrators::{Filtered, Integrators};
use line::frames::{frame_at, put_frame};
use reverb_tuning::{COMBS, LINES};

// How many places a list of stages has.
pub const PLACES: usize = 16;

// The positions of one place: one for each line of a reverb. A delay uses the first.
pub const PLACE_POSITIONS: usize = LINES;

// A place's floats are one for each comb of a reverb, then the two frames of a filter or an EQ. Counted
// in frames, the first of the two is number IC1EQ.
const IC1EQ: usize = COMBS / 2;

// The second of the two follows the first.
const IC2EQ: usize = IC1EQ + 1;

// The floats of one place.
pub const PLACE_FLOATS: usize = 2 * (IC2EQ + 1);

// The positions of all places.
pub const ALL_POSITIONS: usize = PLACES * PLACE_POSITIONS;

// The floats of all places.
pub const ALL_FLOATS: usize = PLACES * PLACE_FLOATS;

// What all stages remember, place after place. A call takes memories by value and gives them back.
#[derive(Clone, Copy, Debug, PartialEq)]
pub struct Memories {
    pub positions: [usize; ALL_POSITIONS],
    pub floats: [f32; ALL_FLOATS],
}

// The memories of a chain that has not run yet: every position is 0, and every float is +0.
pub fn zero() -> Memories
    ensures { result ≡ zero_memories }
{
    Memories {
        positions: [0; ALL_POSITIONS],
        floats: [0.0; ALL_FLOATS],
    }
}

impl Default for Memories {
    fn default() -> Self
        ensures { result ≡ zero_memories }
    {
        zero()
    }
}

// The two frames that a filter or an EQ remembers, read from its place's floats. A missing float is
// read as NaN.
pub fn recall(floats: &[f32]) -> Integrators
    ensures { result ≡ remembered floats.now }
{
    Integrators {
        ic1eq: frame_at(floats, IC1EQ),
        ic2eq: frame_at(floats, IC2EQ),
    }
}

// Stores the two frames that a filter or an EQ remembers from now on among its place's floats, and
// gives the frame that came out.
pub fn keep(filtered: Filtered, floats: &mut [f32]) -> Frame
    ensures { (result ≡ filtered.output) × (floats.new ≡ remember filtered.after floats.old) }
{
    let Filtered { output, after } = filtered;
    put_frame(floats, IC1EQ, after.ic1eq);
    put_frame(floats, IC2EQ, after.ic2eq);
    output
}

// The number at place i of a list (positions, progress or starts), and 0 past its end. Named, since many
// places read so.
pub fn number_at(numbers: &[usize], i: usize) -> usize
    ensures { result ≡ get_or numbers.now i 0 }
{
    numbers.get(i).copied().unwrap_or(0)
}
