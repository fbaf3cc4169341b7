//! Cycles of a network over queues that hold values: what the queues hold, and what the modules compute.
#![tactic(auto)]

mod datapath;
mod firing;
mod held;
mod laws;
mod moves;
mod pipeline;

pub use datapath::Datapath;
pub use laws::{fires_exactly, sends_and_takes};
pub use pipeline::Pipeline;
