// What the WAV programs share. A file comes in on standard input, its frames go through a chain in
// blocks of up to 4,096, and it goes out on standard output with its header as it came. Of a refusal
// the number is written, alone on a line of the error output. A read error counts as the end of the
// input. After a failed write nothing more is written, and no message either.
#![tactic(auto)]

ghost use Rattle.std.specs.Prelude.{◌≤◌, ◌<◌, length};

use answer::Refusal;
use chain::render::render;
use fresh_start::start::start;
use memories::{Memories, PLACES};
use stage::setup::Setup;
use std::io;
use std::io::Read;
use wav_header::{Header, HeaderRefusal};
use wav_samples::frames::{frames_in, frames_out};

// The bytes of a block, which is 4,096 frames at most, and its samples.
const BLOCK_BYTES: usize = 16384;

const BLOCK_SAMPLES: usize = 8192;

// Why a file does not go through to its end: it is refused, by its header or by the chain, or a write
// failed.
#[derive(Clone, Copy)]
enum Stop {
    Header(HeaderRefusal),
    Chain(Refusal),
    Write,
}

impl From<HeaderRefusal> for Stop {
    fn from(refusal: HeaderRefusal) -> Stop {
        Stop::Header(refusal)
    }
}

impl From<Refusal> for Stop {
    fn from(refusal: Refusal) -> Stop {
        Stop::Chain(refusal)
    }
}

impl From<io::Error> for Stop {
    fn from(_error: io::Error) -> Stop {
        Stop::Write
    }
}

impl Stop {
    // The number to write, if any.
    fn number(self) -> Option<u32> {
        match self {
            Stop::Header(refusal) => Some(wav_header::number(Err(refusal))),
            Stop::Chain(refusal) => Some(answer::number(Err(refusal))),
            Stop::Write => None,
        }
    }
}

// Reads until the bytes are full, the input ends or a read fails, and returns how many bytes came, which
// `read_exact` would not say.
fn read_full(rt: &impl Input, bytes: &mut [u8]) -> usize
    ensures { result ≤ length bytes.old }
{
    let mut input = rt.reader();
    let mut done = 0;
    while done < bytes.len() {
        match input.read(&mut bytes[done..]) {
            Ok(0) | Err(_) => break,
            Ok(n) => done += n,
        }
    }
    done
}

// How many of the bytes that are left the next block takes: 4,096 frames at most.
fn block_bytes(remaining: usize) -> usize
    ensures { (result ≤ remaining) × (result ≤ 16384) × (0 < remaining → 0 < result) }
{
    BLOCK_BYTES.min(remaining)
}

// Reads `want` bytes, or as many as there are, and returns how many.
fn read_block(rt: &impl Input, bytes: &mut [u8], want: usize) -> usize
    requires { want ≤ length bytes.old }
    ensures { result ≤ want }
{
    read_full(rt, &mut bytes[..want])
}

// Reads, renders and writes one block of the data of which so many bytes are left, and returns the memories
// after it. Where the input ends before, what came of the block is written first. What lies after the data
// is not read.
#[tactic(auto, unfolding(wav_samples::specs::Frames::whole_frames))]
fn block(
    rt: &(impl Input + Print + Eprint),
    setup: Setup,
    memories: Memories,
    remaining: &mut usize,
    bytes: &mut [u8; BLOCK_BYTES],
    samples: &mut [f32; BLOCK_SAMPLES],
    store: &mut [f32],
) -> Result<Memories, Stop>
    requires { 0 < remaining.old }
    ensures { remaining.new < remaining.old }
{
    let want = block_bytes(*remaining);
    *remaining -= want;
    let got = read_block(rt, bytes, want);
    let frames = frames_in(&bytes[..got], samples);
    let outcome = render(
        setup,
        &mut samples[..2 * frames],
        memories,
        store,
        [0; PLACES],
    )?;
    frames_out(samples, bytes);
    rt.write_all(&bytes[..4 * frames])?;
    if got < want {
        return Err(Stop::Header(HeaderRefusal::Short));
    }
    Ok(outcome.memories)
}

// Runs blocks until all `size` bytes of data are through.
fn blocks(
    rt: &(impl Input + Print + Eprint),
    setup: Setup,
    memories: Memories,
    size: usize,
    store: &mut [f32],
) -> Result<(), Stop> {
    let mut bytes = [0; BLOCK_BYTES];
    let mut samples = [0.0; BLOCK_SAMPLES];
    let mut held = memories;
    let mut remaining = size;
    while remaining > 0 {
        held = block(
            rt,
            setup,
            held,
            &mut remaining,
            &mut bytes,
            &mut samples,
            store,
        )?;
    }
    Ok(())
}

// Reads the header, clears the lines, writes the header as it came, and runs the blocks.
fn pass(
    rt: &(impl Input + Print + Eprint),
    setup: Setup,
    highest: u32,
    store: &mut [f32],
) -> Result<(), Stop> {
    let mut head = [0; 44];
    let n = read_full(rt, &mut head);
    let Header { rate, size } = wav_header::read(&head[..n], highest)?;
    let setup = Setup { rate, ..setup };
    let started = start(setup, store);
    started.answer?;
    rt.write_all(&head)?;
    blocks(rt, setup, started.memories, size as usize, store)
}

// Takes a whole WAV file from standard input to standard output through this chain, at the file's rate
// instead of the setup's. The program takes rates up to `highest`. Of a file that is refused, or cut inside
// its header, nothing is written but the number, on the error output.
pub fn stream(rt: &(impl Input + Print + Eprint), setup: Setup, highest: u32, store: &mut [f32]) {
    let stop = pass(rt, setup, highest, store).err();
    if let Some(number) = stop.and_then(Stop::number) {
        // A number that cannot be written is left unsaid.
        let _ = eprintln!(rt; "{number}");
    }
}
