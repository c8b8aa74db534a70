// The lines of a script: their words and numbers, what each of them says, and why one is refused.
#![tactic(auto)]

pub mod calls;
pub mod lines;
pub mod mistakes;
pub mod numbers;
pub mod verbs;
mod words;
pub mod yards;
