// Theory alone, nothing here runs: an accepted step of `run` is one that kira takes, with effects that have
// all of their lines and all of the effects inside them. No branch is taken that is there for other calls.
#![tactic(auto)]
