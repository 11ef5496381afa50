// The library at its shortest: a block of three frames through an echo. README.md shows some of these lines.
// The program writes the bits of the left samples, which are 0, 1, 1 by document 01's P12.
#![tactic(auto)]

use chain::render::render;
use float::bits::to_bits;
use fresh_start::start::start;
use memories::PLACES;
use stage::kind::Stage;
use stage::setup::Setup;
use std::io;

fn main(rt: HostRuntime) -> io::Result<()> {
    let echo = Stage::Delay {
        frames: 1,
        feedback: 0,
        mix: 1.0,
        owned: 0,
    };
    let setup = Setup::empty(48000).with(echo);
    let mut store = [0.0; 2];
    let mut samples = [1.0, 1.0, 0.0, 0.0, 0.0, 0.0];
    let fresh = start(setup, &mut store).memories;
    let rendered = render(setup, &mut samples, fresh, &mut store, [0; PLACES]);
    if rendered.is_ok() {
        for left in samples.iter().step_by(2) {
            let bits = to_bits(*left);
            println!(rt; "{bits:08x}")?;
        }
    }
    Ok(())
}
