// Tests of kinds of cost and of policies, and what a pair of pairs permits.
#![tactic(auto)]

#[cfg(test)]
mod costs_told;
pub mod nested;
#[cfg(test)]
mod policies_asked;
pub mod walk;
