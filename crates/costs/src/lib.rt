// Kinds of cost: what a walk costs, and which of two walks costs less.
#![tactic(auto)]

pub mod climb;
pub mod cost;
pub mod seconds;
