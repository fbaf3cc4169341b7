//! The files of a job: asked for in order, read to their ends and written, with how far the job is after each step.
#![tactic(auto)]

mod creating;
mod fail;
mod opening;
mod reading;
mod writing;

pub use creating::{create_all, create_next};
pub use fail::StepFail;
pub use opening::{open_all, open_next};
pub use reading::read_next;
pub use writing::write_to;
