//! The course of a simulation: its cycles, the fault of an input that it meets first, and what it asks of the files.
#![tactic(auto)]

mod laws;

pub use laws::{one_fault_is_met_first, runs_end_once};
