// Theory alone, nothing here runs: a step leaves the store and the memories as long as they were, and where
// remembered positions are on their lines, they stay on them.
#![tactic(auto)]
