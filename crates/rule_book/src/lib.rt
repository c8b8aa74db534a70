// A rule book as a policy: which walks break no rule, told by a bit for each marked term.
#![tactic(auto)]

pub mod book;
mod collect;
mod event;
mod term;
mod value;
