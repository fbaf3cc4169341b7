//! Networks of modules and queues, and the machine that counts their firings and events.
#![tactic(auto)]

mod counts;
mod cycle;
mod events;
mod laws;
mod moves;
mod network;

pub use counts::{Counts, can_step, finished, step, waits_for};
pub use cycle::{CycleCount, count_cycle, visit};
pub use events::{Event, Turn};
pub use laws::{
    capacity_decides, cycles_end_in_time, cycles_visit_each_once, no_ring_of_waits,
    queues_stand_in_order, runs_are_lawful,
};
pub use network::{Module, Network, Queue};
/// Want of memory.
pub use std::alloc::AllocError as NoMemory;
