// What works on a lent line: a comb, an all-pass, and a delay's line of frames. A line is a stretch
// of the caller's store; a position, kept apart from it, says where it is read and stored next. Each
// piece of code is lent its own line alone, so it can touch nothing else.
// A comb and an all-pass each read, store and move on by themselves: they store different floats, and
// one step over a closure would be longer than both.
#![tactic(auto)]

pub mod all_pass;
pub mod comb;
mod floats;
pub mod frames;
pub mod position;
