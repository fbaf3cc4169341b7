//! The texts of a job: each asked for and read to its end, behind the ones before it.
#![tactic(auto)]

mod reading;

pub use reading::read_text;
