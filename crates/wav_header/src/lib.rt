// The 44-byte header of a WAV file: what it says, or document 01's refusal of it. Nothing here has a
// `requires`: any bytes may be passed in.
#![tactic(auto)]

ghost use Rattle.std.specs.Prelude.{◌≡◌, Ok, Err, if◌then◌else◌};
ghost use Rattle.theory_tables.specs.Condition.{decide};
ghost use Rattle.wav_header.specs.declared.HeaderRefusal.TheVariants.{Names, Format, Rate, Size};
ghost use Rattle.wav_header.specs.Header.{plain, refusal_number, header_number, names_wrong, format_wrong, rate_wrong, size_wrong, header_of};
ghost use Rattle.wav_bytes.specs.Bytes.{four_at};

use wav_bytes::{four_at, two_at};

// Chunk names, read as numbers with the low byte first. (A constant's value cannot call `from_le_bytes`.)
const RIFF: u32 = 0x4646_4952;

const WAVE: u32 = 0x4556_4157;

const FMT: u32 = 0x2074_6d66;

const DATA: u32 = 0x6174_6164;

// What a header says: the rate, and the bytes of data to come.
#[derive(Clone, Copy, Debug, PartialEq, Eq)]
pub struct Header {
    pub rate: u32,
    pub size: u32,
}

// Document 01's refusals of a header.
#[derive(Clone, Copy, Debug, PartialEq, Eq)]
pub enum HeaderRefusal {
    // 21: wrong chunk names, fmt size not 16, or RIFF size not data size + 36
    Names,
    // 22: not tag 1, two channels, 16 bits, block 4, byte rate 4R
    Format,
    // 23: rate out of range
    Rate,
    // 24: data size not a multiple of 4
    Size,
    // 25: fewer than 44 bytes
    Short,
}

impl HeaderRefusal {
    // Document 01's number.
    pub fn number(self) -> u32
        ensures { result ≡ refusal_number self }
    {
        match self {
            HeaderRefusal::Names => 21,
            HeaderRefusal::Format => 22,
            HeaderRefusal::Rate => 23,
            HeaderRefusal::Size => 24,
            HeaderRefusal::Short => 25,
        }
    }
}

// The number of the answer to a header: that of its refusal, and 0 for a header that is read.
pub fn number(answer: Result<Header, HeaderRefusal>) -> u32
    ensures { result ≡ header_number answer }
{
    answer.err().map_or(0, HeaderRefusal::number)
}

fn check_names(bytes: &[u8]) -> Result<(), HeaderRefusal>
    ensures { result ≡ (if decide (names_wrong bytes.now) then Err Names else Ok tt) }
{
    if four_at(bytes, 0) != RIFF
        || four_at(bytes, 8) != WAVE
        || four_at(bytes, 12) != FMT
        || four_at(bytes, 36) != DATA
        || four_at(bytes, 16) != 16
        || u64::from(four_at(bytes, 4)) != u64::from(four_at(bytes, 40)) + 36
    {
        return Err(HeaderRefusal::Names);
    }
    Ok(())
}

fn check_format(bytes: &[u8]) -> Result<(), HeaderRefusal>
    ensures { result ≡ (if decide (format_wrong bytes.now) then Err Format else Ok tt) }
{
    if two_at(bytes, 20) != 1
        || two_at(bytes, 22) != 2
        || two_at(bytes, 34) != 16
        || two_at(bytes, 32) != 4
        || u64::from(four_at(bytes, 28)) != 4 * u64::from(four_at(bytes, 24))
    {
        return Err(HeaderRefusal::Format);
    }
    Ok(())
}

fn rate_in(bytes: &[u8], highest: u32) -> Result<u32, HeaderRefusal>
    ensures { result ≡ (if decide (rate_wrong (four_at bytes.now plain.rate) highest) then Err Rate
        else Ok (four_at bytes.now plain.rate)) }
{
    let rate = four_at(bytes, 24);
    if rate < 8000 || rate > 192000 || rate > highest {
        return Err(HeaderRefusal::Rate);
    }
    Ok(rate)
}

fn size_in(bytes: &[u8]) -> Result<u32, HeaderRefusal>
    ensures { result ≡ (if decide (size_wrong bytes.now) then Err Size else Ok (four_at bytes.now plain.size)) }
{
    let size = four_at(bytes, 40);
    if size % 4 != 0 {
        return Err(HeaderRefusal::Size);
    }
    Ok(size)
}

// Reads the header in the first 44 bytes, for a program that takes rates up to `highest`. Of the refusals
// that apply it gives the first in the order 25, 21, 22, 23, 24.
#[tactic(auto, unfolding(crate::specs::Header::header_of, theory_tables::specs::Rows::first_row))]
pub fn read(bytes: &[u8], highest: u32) -> Result<Header, HeaderRefusal>
    ensures { result ≡ header_of bytes.now highest }
{
    if bytes.len() < 44 {
        return Err(HeaderRefusal::Short);
    }
    check_names(bytes)?;
    check_format(bytes)?;
    let rate = rate_in(bytes, highest)?;
    let size = size_in(bytes)?;
    Ok(Header { rate, size })
}
