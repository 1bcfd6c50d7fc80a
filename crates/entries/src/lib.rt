// Theory only: the promises of the public entries. Faults have document 01's numbers, every text that is read without a
// fault is answered, and any two answers that a contract allows are equal. The theorems are in proofs/.
#![tactic(auto)]
