// The checks of values handed over without text, in the order of their text's lines.
#![tactic(auto)]

pub mod job;
pub mod result;
