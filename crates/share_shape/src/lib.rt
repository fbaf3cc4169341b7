//! Sharing of shift-equal compounds: what it gives, step by step, its laws, and the search for what the next step
//! shares.
#![tactic(auto)]

mod cells;
mod equal;
mod formula_size;
mod hits;
mod laws;
mod marks;
mod sites;
mod table;

pub use cells::{difference, first_cell};
pub use equal::are_shift_equal;
pub use formula_size::{joined, size};
pub use laws::{
    names_are_new, nothing_is_left_to_share, results_are_valid, sharing_ends,
    sharing_keeps_the_arrays, shifts_are_tested,
};
pub use sites::first_site;
/// Want of memory.
pub use std::alloc::AllocError as NoMemory;
