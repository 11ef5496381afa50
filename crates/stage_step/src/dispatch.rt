// One frame through a stage of any kind (`step`), through a delay with its feedback stages
// (`delay_stage`), and through stages one after another (`span`). The three call each other. They end,
// since a `span` leads only to others with fewer places to run; and the depth goes down from a delay to
// its feedback stages. Store, positions and floats stay separate parameters: a record of several `&mut`s
// has a contract in nested pairs at `.exit`, and no function can split it, since a function lends on
// behalf of one lender only.
ghost use Rattle.std.specs.Prelude.{◌≡◌, ℕ, ◌+◌, ◌-◌, ◌≤◌, ◌<◌};
ghost use Rattle.line.specs.Held.{holds, ran};
ghost use Rattle.memories.specs.Sizes.{places};
ghost use Rattle.stage_step.specs.Step.{delay_stage, step_of, span_of};

use decibels::amplitude;
use filters::{eq_filter, filter};
use frame::Frame;
use line::frames::{frame_at, put_frame};
use line::position::next_position;
use line_layout::layout::Layout;
use memories::{PLACE_FLOATS, PLACE_POSITIONS, keep, number_at, recall};
use plain_effects::{distortion, panning_control, volume_control};
use stage::kind::Stage;

// The delay at place i, whose feedback stages are those at i + 1 to e - 1. Its line is the front of the
// store that it is lent, and its feedback stages have the rest.
#[cycle(delay_stage_span_step)]
fn delay_stage(
    layout: &Layout,
    i: usize,
    e: usize,
    depth: usize,
    frames: u32,
    feedback: i32,
    mix: f32,
    x: Frame,
    store: &mut [f32],
    positions: &mut [usize],
    floats: &mut [f32],
) -> Frame
    requires { (i < e) × (e ≤ places) }
    ensures { (n : ℕ) → e - (i + 1) ≤ n → ran result (holds store.new positions.new floats.new)
        ≡ delay_stage frames feedback mix (span_of n depth layout.now.setup layout.now.starts (i + 1) e) (ran x (holds store.old positions.old floats.old)) }
{
    let length = frames as usize;
    let n = (2 * length).min(store.len());
    let p = PLACE_POSITIONS.min(positions.len());
    let f = PLACE_FLOATS.min(floats.len());
    let at = number_at(positions, 0);
    let oldest = frame_at(&store[..n], at);
    let fed = span(
        layout,
        i + 1,
        e,
        depth,
        oldest,
        &mut store[n..],
        &mut positions[p..],
        &mut floats[f..],
    );
    let wet = fed.mul(amplitude(feedback));
    put_frame(&mut store[..n], at, x.add(wet));
    let next = next_position(at, length);
    if let Some(first) = positions.first_mut() {
        *first = next;
    }
    wet.mixed(x, mix)
}

// The stage at place i, whatever its kind. If it is a delay, its feedback stages are at i + 1 to e - 1.
#[cycle(delay_stage_span_step)]
pub(crate) fn step(
    layout: &Layout,
    i: usize,
    e: usize,
    depth: usize,
    x: Frame,
    store: &mut [f32],
    positions: &mut [usize],
    floats: &mut [f32],
) -> Frame
    requires { (i < e) × (e ≤ places) }
    ensures { (n : ℕ) → e - (i + 1) ≤ n → ran result (holds store.new positions.new floats.new)
        ≡ step_of n depth layout.now.setup layout.now.starts i e (ran x (holds store.old positions.old floats.old)) }
{
    match layout.setup.slots[i].stage {
        Stage::VolumeControl { volume } => volume_control::process(x, volume),
        Stage::PanningControl { panning } => panning_control::process(x, panning),
        Stage::Distortion { kind, drive, mix } => distortion::process(x, kind, drive, mix),
        Stage::Filter {
            mode,
            g,
            resonance,
            mix,
        } => keep(
            filter::process(x, recall(floats), mode, g, resonance, mix),
            floats,
        ),
        Stage::EqFilter { kind, g, gain, q } => keep(
            eq_filter::process(x, recall(floats), kind, g, q, gain),
            floats,
        ),
        Stage::Reverb {
            feedback,
            damping,
            stereo_width,
            mix,
        } => reverb::process(
            x,
            layout.setup.rate,
            feedback,
            damping,
            stereo_width,
            mix,
            store,
            positions,
            floats,
        ),
        Stage::Delay {
            frames,
            feedback,
            mix,
            ..
        } => delay_stage(
            layout, i, e, depth, frames, feedback, mix, x, store, positions, floats,
        ),
    }
}

// The stages at places i to e - 1, one after another, each on its own stretch; none at depth 0.
#[cycle(delay_stage_span_step)]
fn span(
    layout: &Layout,
    i: usize,
    e: usize,
    depth: usize,
    x: Frame,
    store: &mut [f32],
    positions: &mut [usize],
    floats: &mut [f32],
) -> Frame
    requires { (i ≤ e) × (e ≤ places) }
    ensures { (n : ℕ) → e - i ≤ n → ran result (holds store.new positions.new floats.new)
        ≡ span_of n depth layout.now.setup layout.now.starts i e (ran x (holds store.old positions.old floats.old)) }
{
    if depth == 0 || i >= e {
        return x;
    }
    let next = layout.setup.slots[i].stage.next_place(i, e);
    let n = layout.size_between(i, next).min(store.len());
    let p = (PLACE_POSITIONS * (next - i)).min(positions.len());
    let f = (PLACE_FLOATS * (next - i)).min(floats.len());
    let y = step(
        layout,
        i,
        next,
        depth - 1,
        x,
        &mut store[..n],
        &mut positions[..p],
        &mut floats[..f],
    );
    span(
        layout,
        next,
        e,
        depth,
        y,
        &mut store[n..],
        &mut positions[p..],
        &mut floats[f..],
    )
}
