//! Statements of program texts: their grammar, and reading them.
#![tactic(auto)]

mod grammar_laws;
mod one;
mod reading;
mod stage;
mod steps;
mod stop;

pub use grammar_laws::statements_are_one;
pub use reading::{SyntaxFail, read_statements};
/// Want of memory.
pub use std::alloc::AllocError as NoMemory;
