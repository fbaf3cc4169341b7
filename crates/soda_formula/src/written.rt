use soda_words::{BinOp, UnOp, Word};
use sqlite_items::{Boxed, Items};

/// A formula as it is written, with names in place of tensors and params.
#[derive(Drop)]
pub enum Written {
    /// A number.
    Number(u64),
    /// A name and offsets.
    Cell {
        /// The name of the tensor.
        tensor: Word,
        /// The components of the offset, in order, each of magnitude below 2^64.
        offsets: Items<i128>,
    },
    /// A name and at most two indexes.
    Value {
        /// The name of the param.
        param: Word,
        /// The indexes, in order.
        indexes: Items<u64>,
    },
    /// An operator or a call of one operand.
    Unary(UnOp, Boxed<Written>),
    /// An operator or a call of two operands.
    Binary(BinOp, Boxed<Written>, Boxed<Written>),
    /// `select`: the second part where the first differs from 0, and else the third.
    Choice(Boxed<Written>, Boxed<Written>, Boxed<Written>),
    /// A cast word, and the formula whose value it wraps.
    Cast(Word, Boxed<Written>),
}
