//! Program texts, and the programs that are spoken of where they are shared. All of it is tests.
#![tactic(auto)]

#[cfg(test)]
mod tests;
