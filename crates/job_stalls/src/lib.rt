//! The stall file of a job: asked for behind its other texts, read to its end and taken apart.
#![tactic(auto)]

mod fail;
mod reading;

pub use fail::StallFail;
pub use reading::read_stall_file;
