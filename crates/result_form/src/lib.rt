// What a result text means, and how a result is written: all of it is in specs/ and proofs/.
#![tactic(auto)]
