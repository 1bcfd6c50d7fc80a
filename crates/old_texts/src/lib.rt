// What the program of before request P10 says of a text, beside what this one says. There is no code here.
#![tactic(auto)]
