//! The text of a design, read back, changed and cut: a row each. All of it is tests.
#![tactic(auto)]

#[cfg(test)]
mod tests;
