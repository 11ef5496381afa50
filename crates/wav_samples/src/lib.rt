// The samples of a 16-bit stereo WAV file and the floats that stand for them: one sample, and blocks of
// frames in slices. No public function here has a `requires`.
#![tactic(auto)]

pub mod frames;
pub mod sample;
