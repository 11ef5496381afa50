// Theory alone, nothing here runs: what a table of refusals says, for any type of answer. The refusals of a
// chain and those of a WAV header are such tables.
#![tactic(auto)]
