// Policies: which walks are permitted, told by a word that goes along with the walk.
#![tactic(auto)]

mod halves;
pub mod pair;
pub mod policy;
pub mod step;
pub mod stops;
pub mod word;
