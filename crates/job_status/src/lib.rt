//! How a job of the program `sodac` ended: statuses, their numbers, and the line that each puts to standard error.
#![tactic(auto)]

mod messages;
mod reporting;
mod status;

pub use reporting::report;
pub use status::{ArrayFault, Status};
