// Theory alone, nothing here runs: crate refusals answers exactly what document 01's table says in plain
// logic, a call is accepted exactly where it meets what proofs/Clear.antt lists, and in a list without a
// faulty stage the top stages are those of depth 0.
#![tactic(auto)]
