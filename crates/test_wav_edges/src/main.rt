// Runs the functions of the crate `sedhavil_wav`, and with it those of `wav_header` and `wav_samples`, on
// both sides of the edges of document 01's WAV format. Writes a line for each case. The file stdout was
// written from the document by hand.
#![tactic(auto)]

mod data;
mod head;

use std::io;

fn main(rt: HostRuntime) -> io::Result<()> {
    head::cuts(&rt)?;
    head::faults(&rt)?;
    head::wrong_words(&rt)?;
    head::rates(&rt, "rate", 192000)?;
    head::rates(&rt, "rate_to_22050", 22050)?;
    head::sizes(&rt)?;
    data::samples_in(&rt)?;
    data::samples_out(&rt)?;
    data::counts(&rt)?;
    data::past(&rt)
}
