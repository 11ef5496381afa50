// The echo: a delay of 100 frames and a panning after it, over 4,096 frames of noise.
ghost use Rattle.std.specs.Prelude.{◌<◌, length};

use chain::run::run;
use memories::{Memories, PLACES, zero};
use stage::kind::Stage;
use stage::setup::Setup;

// What one way of running the echo leaves.
#[derive(Clone, Copy)]
pub(crate) struct Ended {
    pub samples: [f32; 8192],
    pub store: [f32; 200],
    pub memories: Memories,
}

fn setup() -> Setup {
    let delay = Stage::Delay {
        frames: 100,
        feedback: -6,
        mix: 0.5,
        owned: 0,
    };
    Setup::empty(44100)
        .with(delay)
        .with(Stage::PanningControl { panning: 0.25 })
}

// Sample i of the noise: from -1/2 up to 1/2, in steps of 2^-16.
fn noise(i: usize) -> f32 {
    let n = i % 8192 * 40503 % 65536;
    std::num::nearest_u32_to_f32(n as u32) / 65536.0 - 0.5
}

// An order of so many entries that names both stages in turn.
pub(crate) fn by_frame<const ENTRIES: usize>() -> [usize; ENTRIES] {
    let mut order = [0; ENTRIES];
    for (i, entry) in order.iter_mut().enumerate() {
        *entry = i % 2;
    }
    order
}

// An order of so many entries that names stage 0 in its first half, and then stage 1.
pub(crate) fn by_stage<const ENTRIES: usize>() -> [usize; ENTRIES] {
    let mut order = [0; ENTRIES];
    for (i, entry) in order.iter_mut().enumerate() {
        *entry = if i < ENTRIES / 2 { 0 } else { 1 };
    }
    order
}

// Runs the echo in blocks. A block has as many samples as the order has entries, since both count 2 a frame.
pub(crate) fn echo(order: &[usize]) -> Ended
    requires { 0 < length order.now }
{
    let mut samples = [0.0; 8192];
    for (i, sample) in samples.iter_mut().enumerate() {
        *sample = noise(i);
    }
    let mut store = [0.0; 200];
    let mut memories = zero();
    for block in samples.chunks_exact_mut(order.len()) {
        if let Ok(outcome) = run(setup(), block, memories, &mut store, [0; PLACES], order) {
            memories = outcome.memories;
        }
    }
    Ended {
        samples,
        store,
        memories,
    }
}
