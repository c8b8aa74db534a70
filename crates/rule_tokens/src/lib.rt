// The tokens of a rule text, one at a time, and why a text is refused.
#![tactic(auto)]

mod cursor;
pub mod fault;
pub mod reader;
mod run;
pub mod token;
