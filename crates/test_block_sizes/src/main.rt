// Runs the same echo in four ways: in one block of 4,096 frames and in 64 blocks of 64 frames, each time
// frame after frame and stage after stage. Writes two samples that the first way gives, and whether each
// other way left the same bits. docs/EXAMPLE.md says why it must. What the first way left is then spoilt in
// one place of each of its parts, which must be other bits: a comparison that sees nothing is seen.
#![tactic(auto)]

ghost use Rattle.std.specs.Prelude.{◌≤◌, ◌<◌};

mod echo;
mod spoilt;

use crate::echo::{Ended, by_frame, by_stage, echo};
use float::bits::to_bits;
use std::io;

// How many samples, and so entries of an order, 4,096 frames and 64 frames have.
const WHOLE: usize = 8192;

const PART: usize = 128;

fn say_bits(rt: &impl Print, name: &str, x: f32) -> io::Result<()> {
    let bits = to_bits(x);
    println!(rt; "{name}: {bits:08x}")
}

// Whether two ways left the same samples, line and memories, bit for bit.
fn is_same(a: &Ended, b: &Ended) -> bool {
    same_slices::floats(&a.samples, &b.samples)
        && same_slices::floats(&a.store, &b.store)
        && same_slices::floats(&a.memories.floats, &b.memories.floats)
        && a.memories.positions == b.memories.positions
}

fn compare(rt: &impl Print, name: &str, ended: &Ended, first: &Ended) -> io::Result<()> {
    let bits = if is_same(ended, first) {
        "the same"
    } else {
        "other"
    };
    println!(rt; "{name}: {bits} bits")
}

// Compares what the echo leaves in blocks of so many entries. What a way leaves is gone when its function
// returns: all of it at once in `main` takes more stack than a thread may have.
#[inline(never)]
fn compare_by_stage<const ENTRIES: usize>(
    rt: &impl Print,
    name: &str,
    first: &Ended,
) -> io::Result<()>
    requires { (0 < ENTRIES) × (ENTRIES ≤ 8192) }
{
    compare(rt, name, &echo(&by_stage::<ENTRIES>()), first)
}

#[inline(never)]
fn compare_by_frame<const ENTRIES: usize>(
    rt: &impl Print,
    name: &str,
    first: &Ended,
) -> io::Result<()>
    requires { (0 < ENTRIES) × (ENTRIES ≤ 8192) }
{
    compare(rt, name, &echo(&by_frame::<ENTRIES>()), first)
}

fn compare_spoilt<S: Fn(Ended) -> Ended + Drop>(
    rt: &impl Print,
    name: &str,
    spoil: S,
    first: &Ended,
) -> io::Result<()>
    requires { S.IsAlwaysCallable spoil }
{
    compare(rt, name, &spoil(*first), first)
}

#[inline(never)]
fn by_frame_whole() -> Ended {
    echo(&by_frame::<WHOLE>())
}

fn main(rt: HostRuntime) -> io::Result<()> {
    let first = &by_frame_whole();
    say_bits(&rt, "frame 150, left", first.samples[300])?;
    say_bits(&rt, "frame 4095, right", first.samples[8191])?;
    compare_by_stage::<WHOLE>(&rt, "one block, stage after stage", first)?;
    compare_by_frame::<PART>(&rt, "64 blocks, frame after frame", first)?;
    compare_by_stage::<PART>(&rt, "64 blocks, stage after stage", first)?;
    compare_spoilt(&rt, "a spoilt sample", spoilt::sample, first)?;
    compare_spoilt(&rt, "a spoilt line", spoilt::line, first)?;
    compare_spoilt(&rt, "a spoilt float", spoilt::float, first)?;
    compare_spoilt(&rt, "a spoilt position", spoilt::position, first)
}
