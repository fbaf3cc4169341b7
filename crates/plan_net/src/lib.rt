//! The network of a plan, made module by module and queue by queue.
#![tactic(auto)]

mod charts;
mod ends;
mod joins;
mod layout;
mod order;
mod serving;
mod tables;

pub use charts::{Chart, arrange};
pub use joins::connect;
pub use layout::Layout;
/// Want of memory.
pub use std::alloc::AllocError as NoMemory;
