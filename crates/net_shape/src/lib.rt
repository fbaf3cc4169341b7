//! The network of a plan: its modules in firing order and its queues, as definitions, and that no such network can ever
//! lock up.
#![tactic(auto)]

mod kinds;
mod laws;

pub use kinds::Kind;
pub use laws::{
    gaps_are_of_taps, modules_are_numbered, networks_fit, networks_never_lock_up,
    reuse_queues_hold_storage, runs_end_in_time,
};
