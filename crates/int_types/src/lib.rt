//! Integer types of one to 64 bits, and their operators.
//!
//! A [`Ty`] is a sign and a width. Each operator takes numbers of its operands' types, and gives a type and a number
//! of that type. All calls are total and take no memory: a number beyond a type's range wraps to the one number of
//! the range that differs from it by a multiple of two to the width, and a division by 0 has a value of its own.
#![tactic(auto)]

mod arithmetic;
mod bits;
mod laws;
mod operators;
mod promotion;
mod range;

pub use laws::{
    bitwise_is_bit_by_bit, quotient_is_truncated, results_are_in_range, wrap_is_unique,
};
pub use operators::{binary, select, unary};
pub use promotion::{common, literal_type, promote};
pub use range::{in_range, wrap};
pub use soda_words::{BinOp, Ty, UnOp, cell_bytes, int32};
