//! The program that a job speaks of: that of its text, shared where sharing is asked for.
#![tactic(auto)]

mod laws;
mod spoken;

pub use laws::one_program_is_spoken_of;
pub use spoken::spoken_program;
