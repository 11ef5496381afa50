// Theory alone, nothing here runs: why the order in which stages take their steps cannot matter, whatever
// samples are and whatever stages hold.
#![tactic(auto)]
