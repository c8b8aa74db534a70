// The expressions of rules: what they are, and how they are read from a text.
#![tactic(auto)]

pub mod expr;
pub mod keyword;
pub mod limits;
pub mod parser;
