// Runs the public functions of the crates `chain` and `fresh_start` on both sides of document 01's
// edges. Writes a line for each case: its name, and the answer's number and place; the last cases add
// what the call left. The file stdout was written from the document by hand.
#![tactic(auto)]

mod block;
mod case;
mod list;
mod unchanged;

use std::io;

fn main(rt: HostRuntime) -> io::Result<()> {
    list::rates(&rt)?;
    list::counts(&rt)?;
    list::depths(&rt)?;
    list::owned(&rt)?;
    list::volumes(&rt)?;
    list::delays(&rt)?;
    list::equalizers(&rt)?;
    list::distortions(&rt)?;
    list::stores(&rt)?;
    block::positions(&rt)?;
    block::lengths(&rt)?;
    block::progress(&rt)?;
    block::samples(&rt)?;
    block::owning(&rt)?;
    block::orders(&rt)?;
    block::empty(&rt)?;
    unchanged::steps(&rt)?;
    unchanged::starts(&rt)?;
    unchanged::rendered(&rt)
}
