// Rule books: what they hold, and how they are loaded from a text.
#![tactic(auto)]

pub mod book;
pub mod limits;
mod reading;
pub mod rule;
