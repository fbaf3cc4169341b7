//! The network of a program under delays of its staged tensors, within the limits of networks.
#![tactic(auto)]

mod building;
mod delays;
mod firing;
mod kinds;
mod laws;
mod layouts;
mod limits;
mod refusal;

pub use building::build;
pub use firing::firings;
pub use laws::{
    firings_are_rounded_up, limits_are_three, networks_of_programs_end_in_time,
    networks_of_programs_never_lock_up, programs_have_plans, reuse_queues_of_programs_hold_storage,
};
pub use limits::{MOST_DELAY, MOST_MODULES, MOST_REUSE};
/// Want of memory.
pub use refusal::BuildRefusal;
pub use std::alloc::AllocError as NoMemory;
