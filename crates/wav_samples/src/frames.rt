// Blocks of frames, as bytes of a file and as floats. A frame is four bytes, or two floats. Samples go by
// index: of what is written through a `zip` of `iter_mut` or `chunks_exact_mut`, a proof knows the length alone.
ghost use Rattle.std.specs.Prelude.{◌≡◌, ◌+◌, ◌*◌, ◌/◌, ◌<◌, min, length, set};
ghost use Rattle.wav_samples.specs.Frames.{whole_frames, sample_at, low_of, high_of, samples_in, bytes_out};

use crate::sample::{sample_in, sample_out};
use wav_bytes::two_at;

// How many whole frames so many bytes and so many samples both have room for.
fn whole_frames(bytes: usize, samples: usize) -> usize
    ensures { result ≡ min (bytes / 4) (samples / 2) }
{
    (bytes / 4).min(samples / 2)
}

fn sample_at(bytes: &[u8], i: usize) -> f32
    requires { 2 * i + 1 < length bytes.now }
    ensures { result ≡ sample_at bytes.now i }
{
    sample_in(two_at(bytes, 2 * i).cast_signed())
}

// Turns bytes into samples, as many whole frames as both slices have room for, and returns how many
// frames that is. Samples past them stay as they were.
pub fn frames_in(bytes: &[u8], samples: &mut [f32]) -> usize
    ensures { (result ≡ whole_frames bytes.now samples.old) × (samples.new ≡ samples_in bytes.now samples.old) }
{
    let frames = whole_frames(bytes.len(), samples.len());
    for (i, sample) in samples[..2 * frames].iter_mut().enumerate() {
        *sample = sample_at(bytes, i);
    }
    frames
}

fn put_sample(bytes: &mut [u8], i: usize, x: f32)
    requires { 2 * i + 1 < length bytes.old }
    ensures { bytes.new ≡ set (set bytes.old (2 * i) (low_of x)) (2 * i + 1) (high_of x) }
{
    let [low, high] = sample_out(x).to_le_bytes();
    bytes[2 * i] = low;
    bytes[2 * i + 1] = high;
}

// Turns samples into bytes, as many whole frames as both slices have room for, and returns how many
// frames that is. Bytes past them stay as they were.
pub fn frames_out(samples: &[f32], bytes: &mut [u8]) -> usize
    ensures { (result ≡ whole_frames bytes.old samples.now) × (bytes.new ≡ bytes_out samples.now bytes.old) }
{
    let frames = whole_frames(bytes.len(), samples.len());
    for (i, x) in samples[..2 * frames].iter().enumerate() {
        put_sample(bytes, i, *x);
    }
    frames
}
