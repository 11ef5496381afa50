// The library that C and Rust link for chains: each export calls the function of the crate `sedhavil`
// that has its name, and makes the same promise.
#![tactic(auto)]

ghost use Rattle.std.specs.Prelude.{◌≡◌};
ghost use Rattle.line.specs.Held.{holds};
ghost use Rattle.chain.specs.Chain.{state};
ghost use Rattle.stage_words.specs.Words.{layout_version};
ghost use Rattle.sedhavil.specs.Face.{run_reply, run_leaves, render_reply, render_leaves, start_reply, start_leaves, needed_room};

use sedhavil::{Reply, Room};

// Runs top stages in the given order, each entry on that stage's next frame. The order need not finish
// the block.
#[unsafe(no_mangle)]
pub extern "C" fn sedhavil_run(
    rate: u32,
    stages: &[u64],
    samples: &mut [f32],
    positions: &mut [usize],
    floats: &mut [f32],
    store: &mut [f32],
    progress: &mut [usize],
    order: &[usize],
) -> Reply
    ensures answer { result ≡ run_reply rate stages.now (state samples.old store.old positions.old floats.old progress.old) order.now }
    ensures leaves { state samples.new store.new positions.new floats.new progress.new
        ≡ run_leaves rate stages.now (state samples.old store.old positions.old floats.old progress.old) order.now }
{
    sedhavil::sedhavil_run(
        rate, stages, samples, positions, floats, store, progress, order,
    )
}

// Runs every stage to the last frame, from wherever the block stands.
#[unsafe(no_mangle)]
pub extern "C" fn sedhavil_render(
    rate: u32,
    stages: &[u64],
    samples: &mut [f32],
    positions: &mut [usize],
    floats: &mut [f32],
    store: &mut [f32],
    progress: &mut [usize],
) -> Reply
    ensures answer { result ≡ render_reply rate stages.now (state samples.old store.old positions.old floats.old progress.old) }
    ensures leaves { state samples.new store.new positions.new floats.new progress.new
        ≡ render_leaves rate stages.now (state samples.old store.old positions.old floats.old progress.old) }
{
    sedhavil::sedhavil_render(rate, stages, samples, positions, floats, store, progress)
}

// A fresh start: clears the floats of the store that the stages need, and all memories. Where one of
// refusals 1 to 5 applies it clears the memories alone, and where the call cannot be read nothing.
#[unsafe(no_mangle)]
pub extern "C" fn sedhavil_start(
    rate: u32,
    stages: &[u64],
    positions: &mut [usize],
    floats: &mut [f32],
    store: &mut [f32],
) -> Reply
    ensures answer { result ≡ start_reply rate stages.now (holds store.old positions.old floats.old) }
    ensures leaves { holds store.new positions.new floats.new
        ≡ start_leaves rate stages.now (holds store.old positions.old floats.old) }
{
    sedhavil::sedhavil_start(rate, stages, positions, floats, store)
}

// How many floats the store needs. Refused are words that cannot be read, and what a start refuses with
// a store of that many floats: rates, stages, shapes and settings.
#[unsafe(no_mangle)]
pub extern "C" fn sedhavil_floats_needed(rate: u32, stages: &[u64]) -> Room
    ensures { result ≡ needed_room rate stages.now }
{
    sedhavil::sedhavil_floats_needed(rate, stages)
}

// The version of the layout of a stage's words and of memories. A host that was made for another version
// would send what this library does not know, or reads as something else.
#[unsafe(no_mangle)]
pub extern "C" fn sedhavil_layout_version() -> u32
    ensures { result ≡ layout_version }
{
    sedhavil::sedhavil_layout_version()
}
