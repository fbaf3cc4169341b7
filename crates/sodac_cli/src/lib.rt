//! The whole of what the program `sodac` does, over files and sinks that the caller hands in.
#![tactic(auto)]

mod arrays;
mod compile;
mod delivering;
mod gathering;
mod judging;
mod laws;
mod params;
mod plain;
mod printing;
mod program;
mod top;
mod types;

pub use job_status::{ArrayFault, Status};
pub use laws::only_one_is_due;
pub use top::execute;
