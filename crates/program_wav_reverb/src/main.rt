// The WAV program with one reverb. It takes rates up to 22,050 Hz, at which a reverb's lines need 12,719
// floats.
#![tactic(auto)]

use stage::kind::Stage;
use stage::setup::Setup;

fn main(rt: HostRuntime) {
    let mut store = [0.0; 12719];
    let reverb = Stage::Reverb {
        feedback: 0.9,
        damping: 0.1,
        stereo_width: 1.0,
        mix: 0.5,
    };
    wav_stream::stream(&rt, Setup::empty(0).with(reverb), 22050, &mut store);
}
