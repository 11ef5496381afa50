// kira's `reverb.rs`: on each side eight combs side by side, whose outputs are added up, then four
// all-passes one after another; then the width and the mix. The left side's twelve lines come before
// the right side's. Each line is lent alone to its comb or all-pass, as a part of the store. The store,
// the positions and the floats go as three slices, since each is taken apart at a place of its own. The
// loops count lines by k, since they walk the three together and lend each line as a `&mut` stretch;
// after a zip of `iter_mut` a proof knows the lengths alone.
#![tactic(auto)]

ghost use Rattle.std.specs.Prelude.{◌≡◌, List, ◌+◌, ◌≤◌, Float, length, sum};
ghost use Rattle.std.proofs.Math.Seq.{slice};
ghost use Rattle.line.specs.Held.{holds, ran};
ghost use Rattle.reverb_tuning.specs.Tuning.{side_combs, side_lines, line_count, reverb_lines};
ghost use Rattle.reverb.specs.Reverb.{heard, pass_of, lines_in_turn, side_of, width_of, reverb_of};

use frame::Frame;
use line::{all_pass, comb};
use reverb_tuning::{
    COMBS, LINES, SIDE_COMBS, SIDE_LINES, floats_from, reverb_floats, reverb_line,
};

// The all-passes of one side.
const SIDE_PASSES: usize = SIDE_LINES - SIDE_COMBS;

// Runs a side's all-passes, which begin with line `first`, one after another.
fn passes(first: usize, rate: u32, input: f32, store: &mut [f32], positions: &mut [usize]) -> f32
    requires { (first + 4 ≤ line_count) × (sum (slice first (first + 4) (reverb_lines rate)) ≤ length store.old) × (4 ≤ length positions.old) }
    ensures { (floats : List Float) → heard result (holds store.new positions.new floats)
        ≡ lines_in_turn 0 pass_of heard (slice first (first + 4) (reverb_lines rate)) input (holds store.old positions.old floats) }
{
    let mut output = input;
    let mut start = 0;
    for k in 0..SIDE_PASSES {
        let end = start + reverb_line(first + k, rate);
        let passed = all_pass::process(&mut store[start..end], positions[k], output);
        output = passed.output;
        positions[k] = passed.at;
        start = end;
    }
    output
}

// Runs a side, whose lines begin with line `first`: its combs on the input, and its all-passes on the
// sum of what the combs give.
fn side(
    first: usize,
    rate: u32,
    feedback: f32,
    damping: f32,
    input: f32,
    store: &mut [f32],
    positions: &mut [usize],
    floats: &mut [f32],
) -> f32
    requires { (first + side_lines ≤ line_count) × (sum (slice first (first + side_lines) (reverb_lines rate)) ≤ length store.old) × (side_lines ≤ length positions.old) × (side_combs ≤ length floats.old) }
    ensures { heard result (holds store.new positions.new floats.new)
        ≡ side_of (slice first (first + side_lines) (reverb_lines rate)) feedback damping input (holds store.old positions.old floats.old) }
{
    let mut sum = 0.0;
    let mut start = 0;
    for k in 0..SIDE_COMBS {
        let end = start + reverb_line(first + k, rate);
        let combed = comb::process(
            &mut store[start..end],
            positions[k],
            floats[k],
            input,
            feedback,
            damping,
        );
        sum += combed.output;
        positions[k] = combed.at;
        floats[k] = combed.filter_store;
        start = end;
    }
    passes(
        first + SIDE_COMBS,
        rate,
        sum,
        &mut store[start..],
        &mut positions[SIDE_COMBS..],
    )
}

// Each side with a part of the other: none of it at width 1, as much as of itself at width 0.
fn widened(left: f32, right: f32, stereo_width: f32) -> Frame
    ensures { result ≡ width_of left right stereo_width }
{
    let wet_1 = stereo_width / 2.0 + 0.5;
    let wet_2 = (1.0 - stereo_width) / 2.0;
    Frame {
        left: left * wet_1 + right * wet_2,
        right: right * wet_1 + left * wet_2,
    }
}

// One frame through a reverb at this rate. `store` begins with its lines, `positions` with their
// positions and `floats` with what its combs remember. If one of the three is too short for a reverb,
// the frame comes back and nothing changes. The settings stand side by side, since they are the numbers
// of one case of `Stage` (document 01).
pub fn process(
    input: Frame,
    rate: u32,
    feedback: f32,
    damping: f32,
    stereo_width: f32,
    mix: f32,
    store: &mut [f32],
    positions: &mut [usize],
    floats: &mut [f32],
) -> Frame
    ensures { ran result (holds store.new positions.new floats.new)
        ≡ reverb_of rate feedback damping stereo_width mix (ran input (holds store.old positions.old floats.old)) }
{
    let needed = reverb_floats(rate);
    if store.len() < needed || positions.len() < LINES || floats.len() < COMBS {
        return input;
    }
    let mono = (input.left + input.right) * 0.015;
    let n = needed - floats_from(SIDE_LINES, rate);
    let left = side(
        0,
        rate,
        feedback,
        damping,
        mono,
        &mut store[..n],
        &mut positions[..SIDE_LINES],
        &mut floats[..SIDE_COMBS],
    );
    let right = side(
        SIDE_LINES,
        rate,
        feedback,
        damping,
        mono,
        &mut store[n..],
        &mut positions[SIDE_LINES..],
        &mut floats[SIDE_COMBS..],
    );
    widened(left, right, stereo_width).mixed(input, mix)
}
