//! Computing modules for a simulator: what `cell_of` of staged cells gives firing by firing, from the compiled formula,
//! with nothing searched for or taken from memory in a firing.
#![tactic(auto)]

mod formula;
mod module;
mod side;
mod tap;
mod walk;

pub use formula_code::NoMemory;
pub use module::ComputeModule;
