use crate::Written;
use soda_words::{BinOp, UnOp, Word};
use sqlite_items::Items;

/// An operator between two operands. The level of the loosest is 0.
#[derive(Clone, Copy)]
pub(crate) struct Infix {
    pub(crate) level: u8,
    pub(crate) op: BinOp,
}

/// What was begun and waits for the formula behind it.
#[derive(Drop)]
pub(crate) enum Frame {
    /// A prefix operator.
    Prefix(UnOp),
    /// An operator and the operand in front of it.
    Infix(Infix, Written),
    /// A bracket.
    Group,
    /// A cast word and its bracket.
    Cast(Word),
    /// `abs` and its bracket.
    Abs,
    /// `min` or `max` and its bracket.
    First(BinOp),
    /// `min` or `max`, its bracket, the first formula and a comma.
    Second(BinOp, Written),
    /// `select` and its bracket.
    Test,
    /// `select`, its bracket, the first formula and a comma.
    Then(Written),
    /// `select`, its bracket, two formulas and a comma.
    Else(Written, Written),
}

/// What is read of the operand at hand.
#[derive(Drop)]
pub(crate) enum Mode {
    /// An operand is to come.
    Wanted,
    /// The word of a call or a cast; its bracket is to come.
    Called(Frame),
    /// A whole operand.
    Whole(Written),
    /// A name that isn't reserved.
    Named(Word),
    /// In the offsets of a cell: a component is to come.
    Component(Word, Items<i128>),
    /// In the offsets of a cell, behind a minus sign: a number is to come.
    Magnitude(Word, Items<i128>),
    /// In the offsets of a cell, behind a component.
    BehindComponent(Word, Items<i128>),
    /// In an index of a param: a number is to come.
    Index(Word, Items<u64>),
    /// In an index of a param, behind the number.
    Close(Word, Items<u64>),
    /// Behind one or two indexes of a param.
    Indexed(Word, Items<u64>),
}

/// A formula that is being read.
#[derive(Drop)]
pub(crate) struct Reader {
    pub(crate) mode: Mode,
    /// The innermost last.
    pub(crate) frames: Items<Frame>,
}

/// What a token did.
#[derive(Drop)]
pub(crate) enum Fed {
    /// The formula goes on with it.
    On(Reader),
    /// No formula goes on with it; the formula that ends in front of it, if one does.
    End(Option<Written>),
}

/// What became of an operand.
#[derive(Drop)]
pub(crate) enum Taken {
    /// An operator took it, and here is the larger one.
    Again(Written),
    /// It stands as it is.
    Done(Written),
}

/// The bracket that a token opens, if it opens one.
#[derive(Clone, Copy)]
pub(crate) enum Opening {
    /// `(`
    Round,
    /// `[`
    Square,
    /// None.
    Neither,
}
