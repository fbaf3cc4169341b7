//! Rows of cycles: small networks that read cells and hand cells on, run to their end.
#![tactic(auto)]

mod nets;
mod relay;
mod run;
#[cfg(test)]
mod tests;

pub use nets::pipeline_if_sound;
pub use relay::{Cells, Relay, Stopped, relay_if_one};
pub use run::run_to_end;
