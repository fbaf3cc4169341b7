//! The lines of simulations, as tables: stall files, the modules that they stall, and printed lines. All of it is
//! tests.
#![tactic(auto)]

#[cfg(test)]
mod tests;
