// The library that C and Rust link for WAV files: each export calls the function of the crate
// `sedhavil_wav` that has its name, and makes the same promise.
#![tactic(auto)]

ghost use Rattle.std.specs.Prelude.{◌≡◌};
ghost use Rattle.wav_header.specs.Header.{header_of};
ghost use Rattle.wav_samples.specs.Frames.{whole_frames, samples_in, bytes_out};
ghost use Rattle.sedhavil_wav.specs.Header.{header_out};

use sedhavil_wav::WavHeader;

// Reads the header in the first 44 bytes, for a program that takes rates up to `highest`. Of the refusals
// that apply it gives the first in the order 25, 21, 22, 23, 24.
#[unsafe(no_mangle)]
pub extern "C" fn sedhavil_wav_header(bytes: &[u8], highest: u32) -> WavHeader
    ensures { result ≡ header_out (header_of bytes.now highest) }
{
    sedhavil_wav::sedhavil_wav_header(bytes, highest)
}

// Turns bytes into samples, as many whole frames as both slices have room for, and returns how many
// frames that is. Samples past them stay as they were.
#[unsafe(no_mangle)]
pub extern "C" fn sedhavil_wav_frames_in(bytes: &[u8], samples: &mut [f32]) -> usize
    ensures { (result ≡ whole_frames bytes.now samples.old) × (samples.new ≡ samples_in bytes.now samples.old) }
{
    sedhavil_wav::sedhavil_wav_frames_in(bytes, samples)
}

// Turns samples into bytes, as many whole frames as both slices have room for, and returns how many
// frames that is. Bytes past them stay as they were.
#[unsafe(no_mangle)]
pub extern "C" fn sedhavil_wav_frames_out(samples: &[f32], bytes: &mut [u8]) -> usize
    ensures { (result ≡ whole_frames bytes.old samples.now) × (bytes.new ≡ bytes_out samples.now bytes.old) }
{
    sedhavil_wav::sedhavil_wav_frames_out(samples, bytes)
}
