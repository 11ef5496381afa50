// kira's effects that remember nothing, a module for each kind. An effect takes one frame and its
// settings, and gives the frame that comes out.
#![tactic(auto)]

pub mod distortion;
pub mod panning_control;
pub mod volume_control;
