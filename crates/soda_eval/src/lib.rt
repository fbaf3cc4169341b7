//! What stencil programs mean: their types, values and arrays, and the evaluation of formulas.
#![tactic(auto)]

mod laws;
mod scope;
mod value;

pub use laws::{
    arrays_are_defined, arrays_are_one, cell_from_any_store, cells_are_in_range,
    formulas_are_readable, points_are_numbered, programs_have_meaning,
};
pub use scope::tensor_type;
/// Want of memory.
pub use std::alloc::AllocError as NoMemory;
pub use value::{Cells, eval, type_of};
