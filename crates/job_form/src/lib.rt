// What a job text means, and how a job is written: all of it is in specs/ and proofs/.
#![tactic(auto)]
