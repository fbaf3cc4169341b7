//! The taps and gaps of a lane of reuse buffers.
//!
//! Under an unroll factor of U a tensor's cells arrive U at a time, one at each of U lanes. A read of age `a`, in
//! cells, at lane `r` of what it reads is served (r + a) / U cycles after its cell arrived, rounded down: its age in
//! cycles. The distinct ages in cycles of a lane are its taps, and the lengths of the reuse buffers between them its
//! gaps.
#![tactic(auto)]

mod lanes;
mod laws;

pub use lanes::{gaps, taps};
pub use laws::{gaps_sum_to_storage, taps_are_unique};
/// Want of memory.
pub use std::alloc::AllocError as NoMemory;
