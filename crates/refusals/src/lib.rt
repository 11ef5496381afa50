// What is refused before anything runs: document 01's table of eleven refusals. It comes in parts, since a
// fresh start makes only checks 1 to 5. Anything may be passed in, and nothing is changed here.
#![tactic(auto)]

pub mod call;
pub mod chain;
pub mod samples;
mod shape;
pub mod state;
