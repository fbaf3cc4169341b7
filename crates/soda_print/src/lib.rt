//! The canonical text of a program.
#![tactic(auto)]

mod formulas;
mod lines;
mod text;
mod words;

pub use lines::print;
/// Want of memory.
pub use std::alloc::AllocError as NoMemory;
