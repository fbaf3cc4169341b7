//! The iterations of a program as stages: in which order its tensors are placed, how far their regions keep from the
//! sides of the box, and the staged program of all iterations.
#![tactic(auto)]

mod iterations;
mod laws;
mod margins;
mod nets;
mod outputs;
mod placing;
mod readings;
mod staging;

pub use iterations::{first_margins, next_margins};
pub use laws::{
    counts_are_lengths, margins_are_defined, placing_is_good, reads_are_staged, rounds_are_enough,
    staged_tensors_keep_margins, staging_makes_a_net,
};
pub use margins::{Margins, margins_over};
pub use nets::net_of;
pub use outputs::output_numbers;
pub use placing::placing_order;
pub use readings::number_read;
pub use staging::{Staged, StagedTensor, stage};
/// Want of memory.
pub use std::alloc::AllocError as NoMemory;
