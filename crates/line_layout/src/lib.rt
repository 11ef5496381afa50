// Where the lines of a chain's stages lie in the store, how many floats they have, and whether
// remembered positions are on them.
#![tactic(auto)]

pub mod layout;
pub mod lines;
