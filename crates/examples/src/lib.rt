// Theory only: document 01's marked examples as a single table under a single claim.
#![tactic(auto)]
