// A fresh start, for a chain that has not run yet.
#![tactic(auto)]

pub mod start;
