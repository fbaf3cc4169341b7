//! Stencil programs as data: what a valid one keeps, which of its tensors can be placed, and how many live tensors and
//! reads it has.
#![tactic(auto)]

mod expr;
mod limit;
mod live;
mod make;
mod order;
mod params;
mod placing;
mod program;
mod reads;
mod unique;
mod uses;
mod valid;
mod written;

pub use expr::{Expr, Offset};
pub use limit::LimitKind;
pub use live::{live_count, live_tensors, read_count};
pub use make::MakeRefusal;
pub use params::value_count;
pub use placing::placed_tensors;
pub use program::{Border, Param, Parts, Program, Role, Tensor};
pub use reads::{Read, all_reads, distance};
/// Want of memory.
pub use std::alloc::AllocError as NoMemory;
pub use valid::{fill_burst, outputs_fit, types_in, types_out};
pub use written::pairs_round;
