// Cases of single samples, and of blocks of frames.
use float::bits::{from_bits, to_bits};
use sedhavil_wav::{sedhavil_wav_frames_in, sedhavil_wav_frames_out};
use std::io;

// The bytes of the samples 0, 1, 32767, -32768, -1, 16384, -16384, -32767.
const CODES: [u8; 16] = [
    0, 0, 1, 0, 255, 127, 0, 128, 255, 255, 0, 64, 0, 192, 1, 128,
];

// The bits of floats. In units of 1 / 32768 they are 0, -0, 1/2, the floats after and before it, 3/2,
// 5/2, -1/2, -3/2, -5/2, 32766 1/2, 32767, 32767 1/2, 32768, the largest float, infinity, -32767 1/2,
// -32768, the float below it, the lowest float, -infinity, NaN, the floats next to 0 above and below it,
// the smallest normal one, and -16384.
const FLOATS: [u32; 26] = [
    0x0, 0x80000000, 0x37800000, 0x37800001, 0x377fffff, 0x38400000, 0x38a00000, 0xb7800000,
    0xb8400000, 0xb8a00000, 0x3f7ffd00, 0x3f7ffe00, 0x3f7fff00, 0x3f800000, 0x7f7fffff, 0x7f800000,
    0xbf7fff00, 0xbf800000, 0xbf800001, 0xff7fffff, 0xff800000, 0x7fc00000, 0x1, 0x80000001,
    0x800000, 0xbf000000,
];

pub(crate) fn samples_in(rt: &impl Print) -> io::Result<()> {
    let mut samples = [0.0; 8];
    sedhavil_wav_frames_in(&CODES, &mut samples);
    for (k, x) in samples.into_iter().enumerate() {
        println!(rt; "in {k} {}", to_bits(x))?;
    }
    Ok(())
}

// Float k goes out at place k of a block of zeros.
pub(crate) fn samples_out(rt: &impl Print) -> io::Result<()> {
    for (k, bits) in FLOATS.into_iter().enumerate() {
        let mut samples = [0.0; 26];
        samples[k] = from_bits(bits);
        let mut bytes = [0; 52];
        sedhavil_wav_frames_out(&samples, &mut bytes);
        println!(rt; "out {k} {} {}", bytes[2 * k], bytes[2 * k + 1])?;
    }
    Ok(())
}

// How many frames go in, from so many bytes into so many samples, and how many go out again.
fn count_both(rt: &impl Print, bytes: &mut [u8], samples: &mut [f32]) -> io::Result<()> {
    let frames = sedhavil_wav_frames_in(bytes, samples);
    println!(rt; "frames_in {} {} {frames}", bytes.len(), samples.len())?;
    let frames = sedhavil_wav_frames_out(samples, bytes);
    println!(rt; "frames_out {} {} {frames}", samples.len(), bytes.len())
}

// Bytes of no frame, a part of one, one, one and a half, almost two, and two; two with room for one; a
// block; and one frame more than a block, without room for it and with.
pub(crate) fn counts(rt: &impl Print) -> io::Result<()> {
    let mut few = [0.0; 8];
    count_both(rt, &mut [0; 0], &mut few)?;
    count_both(rt, &mut [0; 3], &mut few)?;
    count_both(rt, &mut [0; 4], &mut few)?;
    count_both(rt, &mut [0; 6], &mut few)?;
    count_both(rt, &mut [0; 7], &mut few)?;
    count_both(rt, &mut [0; 8], &mut few)?;
    count_both(rt, &mut [0; 8], &mut [0.0; 3])?;
    let mut block = [0.0; 8192];
    let mut more = [0.0; 8194];
    count_both(rt, &mut [0; 16384], &mut block)?;
    count_both(rt, &mut [0; 16388], &mut block)?;
    count_both(rt, &mut [0; 16388], &mut more)
}

// What lies past the last whole frame stays as it was.
pub(crate) fn past(rt: &impl Print) -> io::Result<()> {
    let mut samples = [9.0; 4];
    sedhavil_wav_frames_in(&[0, 64, 0, 192, 255], &mut samples);
    print!(rt; "past_in")?;
    for x in samples {
        print!(rt; " {}", to_bits(x))?;
    }
    println!(rt;)?;
    let mut bytes = [7; 6];
    sedhavil_wav_frames_out(&[0.5, -0.5, 1.0], &mut bytes);
    print!(rt; "past_out")?;
    for byte in bytes {
        print!(rt; " {byte}")?;
    }
    println!(rt;)
}
