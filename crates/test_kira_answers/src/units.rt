// A case read in units of 16 bits, the low byte first.
use float::bits::from_bits;
use std::io::Read;
use std::{array, io};

pub(crate) type Unit = [u8; 2];

// Units past the end are 0.
fn unit(units: &[Unit], i: usize) -> u16 {
    units.get(i).map_or(0, |unit| u16::from_le_bytes(*unit))
}

// The number that two units make, the low one first.
fn long(low: u16, high: u16) -> u32 {
    u32::from(low) + 65536 * u32::from(high)
}

pub(crate) fn read_units<const N: usize>(input: &mut impl Read) -> io::Result<[u16; N]> {
    let mut units = [[0; 2]; N];
    input.read_exact(units.as_flattened_mut())?;
    Ok(array::from_fn(|i| unit(&units, i)))
}

pub(crate) fn read_long(input: &mut impl Read) -> io::Result<u32> {
    let [low, high]: [u16; 2] = read_units(input)?;
    Ok(long(low, high))
}

// Where an entry puts something. What it puts there stands in the units after this one.
pub(crate) fn place(entry: &[Unit]) -> usize {
    usize::from(unit(entry, 0))
}

pub(crate) fn float(entry: &[Unit]) -> f32 {
    from_bits(long(unit(entry, 1), unit(entry, 2)))
}

// The number of one unit; the largest unit stands for the largest number.
pub(crate) fn number(entry: &[Unit]) -> usize {
    match unit(entry, 1) {
        u16::MAX => usize::MAX,
        n => usize::from(n),
    }
}

// The number that four units make, the lowest first.
pub(crate) fn word(entry: &[Unit]) -> u64 {
    let low = long(unit(entry, 1), unit(entry, 2));
    let high = long(unit(entry, 3), unit(entry, 4));
    u64::from(low) + 4294967296 * u64::from(high)
}
