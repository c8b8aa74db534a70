// The script of a shift: lines that open a map, set the capacity and the kind of cost, and make calls.
#![tactic(auto)]

mod drafts;
pub mod reader;
pub mod scripts;
