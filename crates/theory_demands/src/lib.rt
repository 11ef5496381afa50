// Theory alone, nothing here runs: the user's three demands, each as one or more theorems with a name here,
// so that none can go missing unnoticed.
#![tactic(auto)]
