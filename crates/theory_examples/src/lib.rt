// Theory alone, nothing here runs: document 01's examples, P1 to P13, as one list (specs/Examples.antt) with one
// claim over all its rows (proofs/ExamplesHold.antt).
#![tactic(auto)]
