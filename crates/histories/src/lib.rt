// Histories of calls on a table of rooms, and what holds over all of them. There is no code here.
#![tactic(auto)]
