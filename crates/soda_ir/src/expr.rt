use arrayvec::ArrayVec;
use soda_words::{BinOp, Ty, UnOp};
use sqlite_items::Boxed;

/// A vector of at most four components, the first of them along the dimension that changes fastest.
pub type Offset = ArrayVec<i64, 4>;

/// A formula.
#[derive(Drop)]
pub enum Expr {
    /// A literal.
    Num(u64),
    /// The cell of a tensor at an offset from the cell that the formula gives. Tensors are numbered with the inputs
    /// first, and then the locals and outputs in text order.
    Cell {
        /// The tensor's number.
        tensor: u32,
        /// The offset, with a component for each dimension.
        offset: Offset,
    },
    /// A param's value. Params are numbered in text order.
    Par {
        /// The param's number.
        param: u32,
        /// The place of the value among those of the param, with the last index changing fastest.
        place: u32,
    },
    /// An operator of one operand.
    Un(UnOp, Boxed<Expr>),
    /// An operator of two operands.
    Bin(BinOp, Boxed<Expr>, Boxed<Expr>),
    /// The second part where the first differs from 0, and else the third.
    Select(Boxed<Expr>, Boxed<Expr>, Boxed<Expr>),
    /// A formula's value, wrapped to a type.
    Cast(Ty, Boxed<Expr>),
}
