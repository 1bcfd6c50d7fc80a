// The lines that hold a list of numbers or of terms, each read in one pass from where it begins in the text.
#![tactic(auto)]

pub mod numbers;
mod places;
pub mod system;
