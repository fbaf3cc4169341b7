//! A bounded queue of numbers between two threads: one end sends, the other takes. What was taken
//! and then what the queue holds is what was sent.
#![tactic(auto)]

mod ends;
mod make;
mod offering;
mod rule;
mod settling;
mod steps;
mod taking;
#[cfg(test)]
mod tests;

pub use ends::{SendEnd, TakeEnd};
pub use make::fifo;
pub use offering::Full;
pub use settling::settle;
/// Want of memory.
pub use std::alloc::AllocError as NoMemory;
pub use taking::Empty;
