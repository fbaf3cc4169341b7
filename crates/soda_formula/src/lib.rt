//! Formulas and statements as program texts write them, the grammar of formulas, and reading one from the first tokens.
#![tactic(auto)]

mod frame;
mod grammar_laws;
mod lists;
mod marks;
mod names;
mod operators;
mod reader;
mod reading;
mod size;
mod stack;
mod statement;
mod trees;
mod values;
mod written;

pub use grammar_laws::{formula_is_one, formula_is_some, name_ends_formula, no_equals_sign};
pub use reading::{FormulaFail, read_formula};
pub use statement::{Extent, FormulaLine, InputLine, ParamLine, Size, Statement};
/// Want of memory.
pub use std::alloc::AllocError as NoMemory;
pub use written::Written;
