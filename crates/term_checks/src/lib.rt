// Tests of sizes and of order, and what makes the terms of an equation good.
#![tactic(auto)]

pub mod ranges;
pub mod terms;
