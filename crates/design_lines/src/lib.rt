//! The lines of the text of a design, a function for each kind: written, and read back.
#![tactic(auto)]

mod cursor;
mod lines;
mod plan;
mod text;
mod told;

pub use cursor::{Pair, Told, behind, behind_line, number_behind, two_behind};
pub use lines::{
    add_line, add_module, add_modules, add_program, add_queue, add_queues, line_count,
};
pub use plan::add_plan_lines;
/// Want of memory.
pub use std::alloc::AllocError as NoMemory;
pub use text::{add_read_front, add_tensor_front, total_line};
pub use told::{Amounts, read_told, tensor_told};
