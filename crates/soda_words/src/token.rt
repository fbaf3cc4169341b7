use crate::Symbol;
use sqlite_items::Items;

/// The smallest piece of a program text that has a meaning.
#[derive(Drop)]
pub enum Token {
    /// A letter or `_`, then letters, digits and `_`, at most 64 bytes.
    Name(Items<u8>),
    /// `0`, or a digit from 1 to 9 and more digits, below 2^64.
    Number(u64),
    /// An operator, a bracket or another mark.
    Sign(Symbol),
    /// Bytes that are none of these.
    Bad,
}

/// A token and the line on which it begins.
#[derive(Drop)]
pub struct Placed {
    /// The number of the line, from 1.
    pub line: u64,
    /// The token.
    pub token: Token,
}

/// A name and the line on which it stands.
#[derive(Drop)]
pub struct Word {
    /// The number of the line, from 1.
    pub line: u64,
    /// The name's bytes.
    pub text: Items<u8>,
}
