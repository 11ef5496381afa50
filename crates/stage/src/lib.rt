// The stages of a chain: the seven kinds with their numbers and what they hold, which settings are in
// range, and a list of stages as one value.
#![tactic(auto)]

pub mod kind;
pub mod range;
pub mod setup;
