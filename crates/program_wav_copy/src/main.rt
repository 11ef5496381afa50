// The WAV program with no stages: the file goes out as it came in, up to the end of its data.
#![tactic(auto)]

use stage::setup::Setup;

fn main(rt: HostRuntime) {
    let mut store = [0.0; 0];
    wav_stream::stream(&rt, Setup::empty(0), 192000, &mut store);
}
