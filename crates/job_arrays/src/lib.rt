//! The arrays of a job's files: read and written, with how far the job is after each.
#![tactic(auto)]

mod layout;
mod reading;
mod writing;

pub use layout::Layout;
pub use reading::read_array;
pub use writing::write_array;
