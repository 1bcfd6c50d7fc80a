// What the terms of an `eq` line are: specs/ alone, for those that read and write them.
#![tactic(auto)]
