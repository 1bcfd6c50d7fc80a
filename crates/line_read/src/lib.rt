// The lines of the texts, each read in one pass from where it begins in the text: what it says, and where the next
// line begins.
#![tactic(auto)]

pub mod counts;
pub mod words;
