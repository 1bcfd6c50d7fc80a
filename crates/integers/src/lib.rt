// Laws of whole numbers: specs/ has the definitions, proofs/ the laws. There is no code here.
#![tactic(auto)]
