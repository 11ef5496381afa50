// Cases of the header. A header is eleven words of four bytes, and each case changes some of them.
ghost use Rattle.std.specs.Prelude.{◌≤◌};

use sedhavil_wav::{WavHeader, sedhavil_wav_header};
use std::io;

// The header of document 01's whole case: RIFF, its size, WAVE, fmt, its size, tag and channels, rate,
// byte rate, block and bits, data, its size.
const GOOD: [u32; 11] = [
    0x46464952, 44, 0x45564157, 0x20746d66, 16, 0x20001, 48000, 192000, 0x100004, 0x61746164, 8,
];

// Wrong words, and where each stands: the four names, fmt size, RIFF size, tag, channels, bits, block,
// byte rate.
const WRONG_WORDS: [(usize, u32); 15] = [
    (0, 0x58464952),
    (2, 0x46564157),
    (3, 0x20746d46),
    (9, 0x61746144),
    (4, 14),
    (4, 18),
    (1, 43),
    (1, 45),
    (5, 0x20003),
    (5, 0x10001),
    (8, 0x80004),
    (8, 0x180004),
    (8, 0x100002),
    (7, 191999),
    (7, 192001),
];

// Rates, and the byte rate of each, which is the lowest 32 bits of four times the rate.
const RATES: [(u32, u32); 8] = [
    (0, 0),
    (7999, 31996),
    (8000, 32000),
    (22050, 88200),
    (22051, 88204),
    (192000, 768000),
    (192001, 768004),
    (1073789824, 192000),
];

// Data sizes, and the RIFF size of each, which is the lowest 32 bits of the data size plus 36.
const SIZES: [(u32, u32); 9] = [
    (0, 36),
    (4, 40),
    (5, 41),
    (6, 42),
    (7, 43),
    (4294967256, 4294967292),
    (4294967259, 4294967295),
    (4294967260, 0),
    (4294967292, 32),
];

// Writes the case's name and number, and the answer to the first n bytes of a header: its number, and the
// rate and the size, which are 0 for a header that is refused.
fn say_cut(
    rt: &impl Print,
    name: &str,
    k: usize,
    words: [u32; 11],
    n: usize,
    highest: u32,
) -> io::Result<()>
    requires { n ≤ 44 }
{
    let bytes = words.map(u32::to_le_bytes);
    let WavHeader { number, rate, size } = sedhavil_wav_header(&bytes.as_flattened()[..n], highest);
    println!(rt; "{name} {k} {number} {rate} {size}")
}

// The first k bytes of a good header; all of it at 44.
pub(crate) fn cuts(rt: &impl Print) -> io::Result<()> {
    for k in 0..45 {
        say_cut(rt, "cut", k, GOOD, k, 192000)?;
    }
    Ok(())
}

// A header with the faults 21 to 24 that the binary digits of k name, from the lowest.
fn faulty(k: usize) -> [u32; 11] {
    let mut words = GOOD;
    if k % 2 == 1 {
        words[0] = 0x58464952;
    }
    if k / 2 % 2 == 1 {
        words[5] = 0x10001;
    }
    if k / 4 % 2 == 1 {
        words[6] = 7999;
        words[7] = 31996;
    }
    if k / 8 % 2 == 1 {
        words[1] = 42;
        words[10] = 6;
    }
    words
}

// Every set of the five faults; the fifth is a header cut to 43 bytes.
pub(crate) fn faults(rt: &impl Print) -> io::Result<()> {
    for k in 0..32 {
        say_cut(
            rt,
            "faults",
            k,
            faulty(k),
            if k < 16 { 44 } else { 43 },
            192000,
        )?;
    }
    Ok(())
}

pub(crate) fn wrong_words(rt: &impl Print) -> io::Result<()> {
    for (k, (at, value)) in WRONG_WORDS.into_iter().enumerate() {
        let mut words = GOOD;
        if let Some(word) = words.get_mut(at) {
            *word = value;
        }
        say_cut(rt, "word", k, words, 44, 192000)?;
    }
    Ok(())
}

pub(crate) fn rates(rt: &impl Print, name: &str, highest: u32) -> io::Result<()> {
    for (k, (rate, byte_rate)) in RATES.into_iter().enumerate() {
        let mut words = GOOD;
        words[6] = rate;
        words[7] = byte_rate;
        say_cut(rt, name, k, words, 44, highest)?;
    }
    Ok(())
}

pub(crate) fn sizes(rt: &impl Print) -> io::Result<()> {
    for (k, (size, riff_size)) in SIZES.into_iter().enumerate() {
        let mut words = GOOD;
        words[10] = size;
        words[1] = riff_size;
        say_cut(rt, "size", k, words, 44, 192000)?;
    }
    Ok(())
}
