//! The rows of whole jobs, as tables: what `execute` answers, prints and leaves over files in memory. All of it is
//! tests.
#![tactic(auto)]

#[cfg(test)]
mod tests;
