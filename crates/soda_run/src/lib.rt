//! The plain run of a program: its defined arrays, evaluated in memory.
#![tactic(auto)]

mod border;
mod exchange;
mod fill;
mod iterations;
mod plain;
mod sizes;
mod spot;

pub use plain::{plain_cell, plain_run};
pub use sizes::array_cells;
/// Want of memory.
pub use std::alloc::AllocError as NoMemory;
