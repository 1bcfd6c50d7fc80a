// Demands 2 and 3: specs/ has the words of the claims, proofs/ the theorems. There is no code here.
#![tactic(auto)]
