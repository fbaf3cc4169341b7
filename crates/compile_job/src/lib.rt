//! What `sodac compile` makes of a program: the text of its design under the least plan, and the size of its network.
#![tactic(auto)]

mod texts;

pub use net_build::BuildRefusal;
pub use texts::{Compiled, compile_program};
/// Want of memory.
pub use std::alloc::AllocError as NoMemory;
