//! Bounded queues as rings in one region of numbers.
#![tactic(auto)]

mod part;
mod rings;

pub use rings::Rings;
/// Want of memory.
pub use std::alloc::AllocError as NoMemory;
