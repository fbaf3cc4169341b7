//! Program texts: which are accepted, as which programs, and which are refused, and why.
#![tactic(auto)]

mod conditions;
mod formulas;
mod laws;
mod printing;
mod program;
mod reading;
mod refusal;
mod refusing;

pub use laws::texts_are_one;
pub use printing::print;
pub use reading::{ParseFail, parse};
pub use refusal::Refusal;
pub use soda_checks::Need;
pub use soda_ir::LimitKind;
/// Want of memory.
pub use std::alloc::AllocError as NoMemory;
