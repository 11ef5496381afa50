// A chain of at most 16 stages over a block of samples, for callers in Rattle; C and Rust link crate
// sedhavil. `run` takes steps in a given order, `render` brings every stage to the last frame, and a fresh
// start is in crate fresh_start. Anything may be passed in: what meets one of document 01's eleven refusals
// is refused, and then nothing changes.
#![tactic(auto)]

mod plan;
pub mod render;
pub mod run;
