//! Runs of whole programs in memory, a row each: what `plain_run` gives over given arrays and params. All of it is
//! tests.
#![tactic(auto)]

#[cfg(test)]
mod tests;
