// Tests of maps and of what is said about them.
#![tactic(auto)]

#[cfg(test)]
mod files;
#[cfg(test)]
mod words;
#[cfg(test)]
mod yards;
