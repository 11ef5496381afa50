// The head of a case, read part after part; case.rt says what stands in it.
use crate::call::Told;
use crate::units::{read_long, read_units};
use std::io;
use std::io::Read;

// A function of the crate `sedhavil`.
#[derive(Clone, Copy)]
pub(crate) enum Function {
    Run,
    Render,
    Start,
    FloatsNeeded,
}

impl From<u16> for Function {
    // 2 is `Start`, and so is any number that no case has.
    fn from(number: u16) -> Function {
        match number {
            0 => Function::Run,
            1 => Function::Render,
            3 => Function::FloatsNeeded,
            _ => Function::Start,
        }
    }
}

// How long the slices are that a call gets.
#[derive(Clone, Copy)]
pub(crate) struct Lengths {
    pub words: u16,
    pub samples: u16,
    pub store: u16,
    pub positions: u16,
    pub floats: u16,
    pub progress: u16,
    pub order: u16,
}

#[derive(Clone, Copy)]
pub(crate) struct Head {
    pub function: Function,
    pub rate: u32,
    pub lengths: Lengths,
    pub told: Told,
    pub starts: [u16; 13],
}

fn read_lengths(input: &mut impl Read) -> io::Result<Lengths> {
    let [words, samples, store, positions, floats, progress, order]: [u16; 7] = read_units(input)?;
    Ok(Lengths {
        words,
        samples,
        store,
        positions,
        floats,
        progress,
        order,
    })
}

fn read_told(input: &mut impl Read) -> io::Result<Told> {
    let [number]: [u16; 1] = read_units(input)?;
    Ok(Told {
        number: u32::from(number),
        place: read_long(input)? as usize,
        floats: read_long(input)? as usize,
    })
}

pub(crate) fn read_head(input: &mut impl Read) -> io::Result<Head> {
    let [function]: [u16; 1] = read_units(input)?;
    Ok(Head {
        function: Function::from(function),
        rate: read_long(input)?,
        lengths: read_lengths(input)?,
        told: read_told(input)?,
        starts: read_units(input)?,
    })
}
