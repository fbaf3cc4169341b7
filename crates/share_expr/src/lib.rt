//! Sharing of shift-equal compounds of a program.
#![tactic(auto)]

mod copies;
mod limits;
mod local;
mod names;
mod replaced;
mod sharing;
mod step;

pub use sharing::{ShareRefusal, share};
/// Want of memory.
pub use std::alloc::AllocError as NoMemory;
