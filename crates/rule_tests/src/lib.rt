// Tests of rule texts and rule books.
#![tactic(auto)]

#[cfg(test)]
mod books;
#[cfg(test)]
mod texts;
