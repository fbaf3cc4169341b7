use crate::Written;
use soda_words::Word;
use sqlite_items::Items;

/// A size of a param, with its line.
#[derive(Clone, Copy)]
pub struct Size {
    /// The number of the line, from 1.
    pub line: u64,
    /// The size.
    pub value: u64,
}

/// An item of a tile.
#[derive(Clone, Copy)]
pub enum Extent {
    /// A fixed extent, in cells.
    Fixed(u64),
    /// `*`, the extent that is not fixed.
    Open,
}

/// A param as it is written.
#[derive(Drop)]
pub struct ParamLine {
    /// The word for its type.
    pub ty: Word,
    /// Its name.
    pub name: Word,
    /// Its sizes, at most two.
    pub sizes: Items<Size>,
}

/// An input as it is written.
#[derive(Drop)]
pub struct InputLine {
    /// The word for its type.
    pub ty: Word,
    /// Its name.
    pub name: Word,
    /// The items of its tile, if it has one.
    pub tile: Option<Items<Extent>>,
}

/// A local or an output as it is written.
#[derive(Drop)]
pub struct FormulaLine {
    /// The word for its type.
    pub ty: Word,
    /// Its name.
    pub name: Word,
    /// The components of the offset on its left side.
    pub left: Items<i128>,
    /// Its formula.
    pub formula: Written,
}

/// A statement of a program text. The line of a setting is that of its first word.
#[derive(Drop)]
pub enum Statement {
    /// The name of the program.
    Kernel {
        /// The number of the line, from 1.
        line: u64,
        /// The name's bytes.
        text: Items<u8>,
    },
    /// The width of a burst, in bits.
    BurstWidth {
        /// The number of the line, from 1.
        line: u64,
        /// The width.
        width: u64,
    },
    /// How many cells are made in a cycle.
    UnrollFactor {
        /// The number of the line, from 1.
        line: u64,
        /// The factor.
        factor: u64,
    },
    /// How often the computation runs.
    Iterate {
        /// The number of the line, from 1.
        line: u64,
        /// How often.
        times: u64,
    },
    /// What the outputs' cells are outside their regions.
    Border {
        /// The number of the line, from 1.
        line: u64,
        /// Whether they are preserved, and not ignored.
        preserve: bool,
    },
    /// The name of a cluster, which has no effect.
    Cluster {
        /// The number of the line, from 1.
        line: u64,
    },
    /// A param.
    Param(ParamLine),
    /// An input.
    Input(InputLine),
    /// A local.
    Local(FormulaLine),
    /// An output.
    Output(FormulaLine),
}
