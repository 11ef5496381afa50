// kira's two effects that remember two frames, the filter and the EQ. Each takes one frame, what it
// remembers and its settings, and gives the frame that comes out and what it remembers after it. The
// settings stand side by side, since they are the numbers of one case of `Stage` (document 01).
#![tactic(auto)]

pub mod eq_filter;
pub mod filter;
mod narrowed;
