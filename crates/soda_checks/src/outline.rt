ghost use Rattle.std.specs.Prelude.{◌≡◌, IfOk, OnOk, map};
ghost use Rattle.soda_checks.specs.Outline.{joined, outline_in, outline_of};
ghost use Rattle.soda_formula.specs.Statements.{plain_statement};

use soda_formula::{InputLine, ParamLine, Size};
use soda_words::Word;
use sqlite_items::Items;

/// Which setting of a program a statement is.
#[derive(Clone, Copy)]
pub enum SettingKind {
    /// The name of the program.
    Kernel,
    /// The width of a burst.
    BurstWidth,
    /// How many cells are made in a cycle.
    UnrollFactor,
    /// How often the computation runs.
    Iterate,
    /// What the outputs' cells are outside their regions.
    Border,
    /// The name of a cluster.
    Cluster,
}

/// A setting, and the line of its first word.
#[derive(Clone, Copy)]
pub struct Setting {
    /// The number of the line, from 1.
    pub line: u64,
    /// Which setting it is.
    pub kind: SettingKind,
}

/// A local or output without its left side's offset and its formula.
#[derive(Drop)]
pub struct Defined {
    /// Whether it is an output.
    pub is_output: bool,
    /// The word for its type.
    pub ty: Word,
    /// Its name.
    pub name: Word,
}

/// A place of a text where a size, offsets or indexes stand, or may stand.
#[derive(Drop)]
pub enum Site {
    /// A size of a param.
    Size(Size),
    /// The name of a local or output, with the offsets behind it.
    Left {
        /// The name.
        name: Word,
        /// The components, in order.
        offsets: Items<i128>,
    },
    /// A name in a formula, with the offsets behind it.
    Cell {
        /// The name.
        name: Word,
        /// The components, in order.
        offsets: Items<i128>,
    },
    /// A name in a formula, with the indexes behind it, or none.
    Value {
        /// The name.
        name: Word,
        /// The indexes, in order.
        indexes: Items<u64>,
    },
}

/// What the conditions look at, each list in text order.
#[derive(Drop)]
pub struct Outline {
    /// The settings.
    pub settings: Items<Setting>,
    /// The burst widths that are set, in bits.
    pub bursts: Items<u64>,
    /// The unroll factors that are set.
    pub unrolls: Items<u64>,
    /// How often the computation runs, where it is set.
    pub iterates: Items<u64>,
    /// Whether the border is preserved, where it is set.
    pub preserves: Items<bool>,
    /// The type words and cast words.
    pub types: Items<Word>,
    /// The declared names.
    pub declared: Items<Word>,
    /// The params.
    pub params: Items<ParamLine>,
    /// The inputs.
    pub inputs: Items<InputLine>,
    /// The locals and outputs.
    pub defined: Items<Defined>,
    /// The sizes of params, the left sides, and the names in formulas.
    pub sites: Items<Site>,
}
