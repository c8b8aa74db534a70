// Scripts and what is read of them.
#![tactic(auto)]

#[cfg(test)]
mod tests;
