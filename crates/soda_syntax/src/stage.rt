use soda_formula::{Extent, ParamLine, Statement};
use soda_words::Word;
use sqlite_items::Items;

/// What a setting sets.
#[derive(Clone, Copy)]
pub enum Setting {
    /// The name of the program.
    ProgramName,
    /// The width of a burst.
    Width,
    /// The unroll factor.
    Factor,
    /// How often the computation runs.
    Times,
    /// What is outside the outputs' regions.
    Edge,
    /// The name of a cluster.
    Group,
}

/// What a declared name stands for.
#[derive(Clone, Copy)]
pub enum Role {
    /// A param.
    Parameter,
    /// An input.
    Source,
    /// A local.
    Middle,
    /// An output.
    Target,
}

/// A setting whose first word is read, with its line.
#[derive(Clone, Copy)]
pub struct Heading {
    /// What it sets.
    pub setting: Setting,
    /// The line of its first word.
    pub line: u64,
}

/// An input with the items of its tile that are read.
#[derive(Drop)]
pub struct TileSoFar {
    /// The word for its type.
    pub ty: Word,
    /// Its name.
    pub name: Word,
    /// The items.
    pub items: Items<Extent>,
}

/// The left side of a formula with the components of its offset that are read.
#[derive(Drop)]
pub struct LeftSide {
    /// What is declared: a local or an output.
    pub role: Role,
    /// The word for its type.
    pub ty: Word,
    /// Its name.
    pub name: Word,
    /// The components.
    pub offsets: Items<i128>,
}

/// What is read of a statement, by what has to come next.
#[derive(Drop)]
pub enum Stage {
    /// The first word.
    Start,
    /// `width`, behind `burst` on this line.
    WidthWord(u64),
    /// `factor`, behind `unroll` on this line.
    FactorWord(u64),
    /// The colon of a setting.
    SettingColon(Heading),
    /// The value of a setting.
    SettingValue(Heading),
    /// Nothing: the statement is whole.
    Finished(Statement),
    /// A bank or a type.
    BankOrType(Role),
    /// A number of a bank.
    BankNumber(Role),
    /// A dot and more of a bank, or a type.
    BankMore(Role),
    /// A type.
    TypeWord(Role),
    /// The colon behind a type.
    RoleColon(Role, Word),
    /// The name behind a type.
    RoleName(Role, Word),
    /// A size in brackets, or nothing.
    Sizes(ParamLine),
    /// The number of a size.
    SizeNumber(ParamLine),
    /// The bracket behind the last size.
    SizeClose(ParamLine),
    /// A tile, or nothing.
    TileOrEnd(TileSoFar),
    /// An item of a tile.
    TileItem(TileSoFar),
    /// A comma or a bracket behind an item.
    TileMore(TileSoFar),
    /// The bracket before the offset of a left side.
    OffsetsOpen(LeftSide),
    /// A component of the offset.
    Component(LeftSide),
    /// The number behind the minus sign of a component.
    Magnitude(LeftSide),
    /// A comma or a bracket behind a component.
    ComponentMore(LeftSide),
    /// The equals sign.
    Equals(LeftSide),
    /// The formula.
    Formula(LeftSide),
}

/// What a token is to what is read of a statement.
#[derive(Drop)]
pub enum Next {
    /// It belongs to the statement.
    Goes(Stage),
    /// The statement was whole before it.
    Whole(Statement),
    /// No statement goes on with it.
    Wrong,
}
