// What steps, one after the other, do to a box. There is no code here.
#![tactic(auto)]
