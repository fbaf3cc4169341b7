//! The operators of formulas on words of 32 bits, where they compute as int32, and loops over many words at a time.
#![tactic(auto)]

mod cell;
mod fused;
mod kernel;
mod norm;
mod operands;
mod operators;
mod reciprocal;

pub use cell::Cell;
pub use fused::{Kept, on_part, on_three, on_two_cells, one_into, two_into};
pub use kernel::{
    Between, Complement, IsZero, Magnitude, Negated, On, OnNumber, OnOne, One, PartOf, Same, Two,
    WrapTo, choose, on_cells, on_one, on_pair, on_two, widen,
};
pub use norm::Norm;
pub use operands::{Operand, Operands};
pub use operators::{
    AreBoth, CommonBits, Difference, EitherBits, Greatest, IsAtLeast, IsAtMost, IsEither, IsEqual,
    IsGreater, IsLess, IsOther, Least, Operator, Product, Quotient, Rest, Sum, UnlikeBits,
};
pub use reciprocal::Reciprocal;
