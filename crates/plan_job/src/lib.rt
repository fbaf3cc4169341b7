//! The least storage that a program needs, as text, with what shows that it is the least.
#![tactic(auto)]

mod plan;

pub use plan::plan_text;
/// Want of memory.
pub use std::alloc::AllocError as NoMemory;
