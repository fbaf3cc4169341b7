//! Worked rows of delays, longest walks, lanes and networks: tables, each of which is a test of the crates below.
#![tactic(auto)]

mod nets;
#[cfg(test)]
mod tests;

pub use nets::net_if_one;
/// Want of memory.
pub use std::alloc::AllocError as NoMemory;
