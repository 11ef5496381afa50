// A step of the stage at a list place, the stages that a delay owns included. It is lent a stretch of
// the store, of the positions and of the floats, and hands parts of it on: it can touch nothing else.
#![tactic(auto)]

mod dispatch;
pub mod place;
