//! The words of the language: its integer types, its operators with their table, its limits, and the names, numbers and
//! symbols of program texts, each with its line.
#![tactic(auto)]

mod limits;
mod lines;
mod names;
mod numbers;
mod operators;
mod reading;
mod symbol;
mod table;
mod token;
mod ty;

pub use limits::{
    LEAST_BURST, MOST_BRACKETS, MOST_BURST, MOST_CANONICAL, MOST_CELLS, MOST_DIMS, MOST_ITERATE,
    MOST_LIVE, MOST_NAME, MOST_OFFSET, MOST_READS, MOST_SIZES, MOST_TENSORS, MOST_TEXT, MOST_TILE,
    MOST_TOKENS, MOST_TOTAL, MOST_UNROLL, MOST_VALUES,
};
pub use lines::{end_line, not_ascii};
pub use names::{
    behind, is_cast_word, is_free_name, is_name, is_reserved, is_some_digits, is_word, is_word_byte,
};
pub use numbers::number;
pub use operators::{BinOp, OPERAND_LEVEL, PREFIX_LEVEL, UnOp};
pub use reading::tokens;
/// Want of memory.
pub use std::alloc::AllocError as NoMemory;
pub use symbol::Symbol;
pub use table::NameTable;
pub use token::{Placed, Token, Word};
pub use ty::{Ty, cell_bytes, int32, int64, uint64};
