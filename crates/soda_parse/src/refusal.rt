use soda_checks::Need;
use soda_ir::LimitKind;

/// Why a program text is refused. A line counts from 1.
#[derive(Clone, Copy, Debug, PartialEq, Eq)]
pub enum Refusal {
    /// The text has too many bytes.
    TextTooLong,
    /// A byte of 128 or more stands outside comments, first on this line.
    NotAscii(u64),
    /// The tokens are not of the grammar, or a formula is too large.
    Syntax(u64),
    /// A statement is missing.
    Missing(Need),
    /// A setting stands twice.
    Twice(u64),
    /// A type is a float type.
    FloatType(u64),
    /// A type is no integer type.
    BadWidth(u64),
    /// A declared name is reserved or was declared before.
    NameTwice(u64),
    /// A name in a formula is declared nowhere.
    UnknownName(u64),
    /// A left side or a cell has the wrong number of offsets.
    WrongDims(u64),
    /// A local or output reads itself, on the way over others maybe.
    Circular(u64),
    /// The program iterates, and its outputs do not fit its inputs.
    IterateMismatch,
    /// The border is preserved, and the outputs do not fit the inputs.
    PreserveMismatch,
    /// A tile is wrong.
    Tile(u64),
    /// A limit is passed, by this number.
    Limit(LimitKind, u128),
    /// The burst width is not one that the cells fit in.
    BurstWidth(u64),
    /// A param is used wrongly.
    ParamUse(u64),
}
