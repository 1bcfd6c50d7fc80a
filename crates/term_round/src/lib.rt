// Theorems of an `eq` line: it is read as it is written, and written as it was read. All of it is in proofs/.
#![tactic(auto)]
