//! The text of a design, read back: the design, or the line at which the text is refused.
#![tactic(auto)]

mod fail;
mod laws;
mod limits;
mod networks;
mod plans;
mod programs;
mod reading;
mod totals;

pub use fail::TextFail;
pub use laws::{
    queues_of_designs_are_few, refused_lines_are_one, texts_of_designs_are_not_refused,
};
pub use limits::MOST_DESIGN_TEXT;
pub use reading::read_design;
/// Want of memory.
pub use std::alloc::AllocError as NoMemory;
