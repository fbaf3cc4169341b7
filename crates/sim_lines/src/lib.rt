//! The lines of a simulation: the stall file that it reads, which modules it stalls, and the lines that it prints.
#![tactic(auto)]

mod flags;
mod laws;
mod limits;
mod marking;
mod printing;
mod reading;
mod stall;
mod stalled;
mod timetable;

pub use flags::StallFlags;
pub use laws::{flags_are_counted, stalled_cycles_are_few};
pub use limits::MOST_STALL_BYTES;
pub use param_lines::LineFail;
pub use printing::{add_cycle_line, add_end_lines};
pub use reading::read_stalls;
/// Want of memory.
pub use soda_words::NoMemory;
pub use stall::Stall;
