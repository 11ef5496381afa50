// What a call leaves, accepted or refused. Floats are written as bits: 1 is 1065353216, one half 1056964608.
use crate::case::{delay, say};
use chain::render::render;
use chain::run::{Outcome, run};
use float::bits::to_bits;
use fresh_start::start::start;
use memories::{PLACES, zero};
use stage::setup::Setup;
use std::io;

// A chain of one delay.
fn alone(rate: u32, frames: u32) -> Setup {
    Setup::empty(rate).with(delay(frames, 0))
}

fn say_number(rt: &impl Print, name: &str, n: usize) -> io::Result<()> {
    println!(rt; "{name} {n}")
}

fn say_bits(rt: &impl Print, name: &str, x: f32) -> io::Result<()> {
    let bits = to_bits(x);
    println!(rt; "{name} {bits}")
}

// A delay of 2 frames over a block of one. Its line holds ones, and the samples are one half.
fn on_delay(rt: &impl Print, order: &[usize]) -> io::Result<()> {
    let mut samples = [0.5; 2];
    let mut store = [1.0; 4];
    let fresh = Outcome {
        memories: zero(),
        progress: [0; PLACES],
    };
    let outcome = run(
        alone(44100, 2),
        &mut samples,
        fresh.memories,
        &mut store,
        fresh.progress,
        order,
    );
    say(rt, "answer", outcome.map(|_| ()))?;
    let left = outcome.unwrap_or(fresh);
    say_bits(rt, "sample", samples[0])?;
    say_bits(rt, "store", store[0])?;
    say_number(rt, "position", left.memories.positions[0])?;
    say_number(rt, "progress", left.progress[0])
}

// A step past the block's end is refused, and one in it is taken.
pub(crate) fn steps(rt: &impl Print) -> io::Result<()> {
    on_delay(rt, &[0, 0])?;
    on_delay(rt, &[0])
}

// A fresh start of a delay of 1 frame, which needs 2 of the store's 3 floats.
fn on_start(rt: &impl Print, name: &str, rate: u32) -> io::Result<()> {
    let mut store = [1.0; 3];
    let started = start(alone(rate, 1), &mut store);
    say(rt, name, started.answer)?;
    say_bits(rt, "last_needed", store[1])?;
    say_bits(rt, "past_needed", store[2])
}

// A start clears what it needs, unless it is refused.
pub(crate) fn starts(rt: &impl Print) -> io::Result<()> {
    on_start(rt, "start_8000", 8000)?;
    on_start(rt, "start_7999", 7999)
}

// P12: a delay of 1 frame, feedback 0 dB, mix 1.
pub(crate) fn rendered(rt: &impl Print) -> io::Result<()> {
    let mut samples = [1.0, 0.0, 0.0, 0.0, 0.0, 0.0];
    let rendered = render(
        alone(44100, 1),
        &mut samples,
        zero(),
        &mut [0.0; 2],
        [0; PLACES],
    );
    say(rt, "render", rendered.map(|_| ()))?;
    say_bits(rt, "left_0", samples[0])?;
    say_bits(rt, "left_1", samples[2])?;
    say_bits(rt, "left_2", samples[4])
}
