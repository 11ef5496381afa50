// The crates `wav_header` and `wav_samples` for C and Rust to link: the answer to a header as one
// struct, and blocks of frames.
#![tactic(auto)]

ghost use Rattle.std.specs.Prelude.{◌≡◌};
ghost use Rattle.wav_header.specs.Header.{header_of};
ghost use Rattle.wav_samples.specs.Frames.{whole_frames, samples_in, bytes_out};
ghost use Rattle.sedhavil_wav.specs.Header.{header_out};

use wav_header::{Header, HeaderRefusal};

// The answer to a header: number 0, its rate and its data size if it is read; otherwise document 01's
// number, 21 to 25, and zeros.
#[repr(C)]
#[derive(Clone, Copy, Debug, PartialEq, Eq)]
pub struct WavHeader {
    pub number: u32,
    pub rate: u32,
    pub size: u32,
}

impl From<Result<Header, HeaderRefusal>> for WavHeader {
    ghost from_gives = { λ answer out. out ≡ header_out answer };

    #[tactic(auto, unfolding(crate::specs::Header::header_out))]
    fn from(answer: Result<Header, HeaderRefusal>) -> WavHeader {
        let number = wav_header::number(answer);
        match answer {
            Ok(Header { rate, size }) => WavHeader { number, rate, size },
            Err(_) => WavHeader {
                number,
                rate: 0,
                size: 0,
            },
        }
    }
}

// Reads the header in the first 44 bytes, for a program that takes rates up to `highest`. Of the refusals
// that apply it gives the first in the order 25, 21, 22, 23, 24.
pub fn sedhavil_wav_header(bytes: &[u8], highest: u32) -> WavHeader
    ensures { result ≡ header_out (header_of bytes.now highest) }
{
    WavHeader::from(wav_header::read(bytes, highest))
}

// Turns bytes into samples, as many whole frames as both slices have room for, and returns how many
// frames that is. Samples past them stay as they were.
pub fn sedhavil_wav_frames_in(bytes: &[u8], samples: &mut [f32]) -> usize
    ensures { (result ≡ whole_frames bytes.now samples.old) × (samples.new ≡ samples_in bytes.now samples.old) }
{
    wav_samples::frames::frames_in(bytes, samples)
}

// Turns samples into bytes, as many whole frames as both slices have room for, and returns how many
// frames that is. Bytes past them stay as they were.
pub fn sedhavil_wav_frames_out(samples: &[f32], bytes: &mut [u8]) -> usize
    ensures { (result ≡ whole_frames bytes.old samples.now) × (bytes.new ≡ bytes_out samples.now bytes.old) }
{
    wav_samples::frames::frames_out(samples, bytes)
}
