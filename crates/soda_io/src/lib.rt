//! Files and sinks as a program sees them, in memory and real.
#![tactic(auto)]

mod call;
mod error;
mod fault;
mod files;
mod held;
mod limits;
mod mem_files;
mod mem_id;
mod mem_sink;
mod real;
mod role;
mod sink;

pub use call::{FileCall, Name};
pub use error::IoErr;
pub use files::Files;
pub use mem_files::MemFiles;
pub use mem_sink::MemSink;
pub use real::{RealFiles, StdSink};
pub use role::FileRole;
pub use sink::Sink;
/// Want of memory.
pub use std::alloc::AllocError as NoMemory;
