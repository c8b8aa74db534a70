// Street maps as files: the check of their bytes, and a map that reads them in place.
#![tactic(auto)]

pub mod check;
pub mod file;
mod reading;
