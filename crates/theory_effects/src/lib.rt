// Theory alone, nothing here runs: a step once more, as kira has it, with a tree of effects, each with its own
// lines and the effects inside it. Of a list of stages that is not refused, a step is this one.
#![tactic(auto)]
