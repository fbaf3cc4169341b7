//! Params files: the values of a program's params, a line each, and the lines at which a file is refused.
#![tactic(auto)]

mod laws;
mod line_fail;
mod number;
mod reading;
mod row;
mod splitting;

pub use laws::{params_are_one, written_params_are_read};
pub use line_fail::LineFail;
pub use reading::{MOST_PARAMS, read_params};
pub use splitting::{next_run, split_line};
