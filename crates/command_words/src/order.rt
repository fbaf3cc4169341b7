ghost use Rattle.std.specs.Prelude.{◌≡◌};

use crate::Mode;
use std::alloc::AllocError;
use thiserror::Error;

/// Where the program comes from.
#[derive(Clone, Copy)]
pub enum Source<'a> {
    /// The file of this name.
    Program(&'a str),
    /// It is made from this seed.
    Seed(u64),
}

/// What a command line asks for.
#[derive(Drop)]
pub struct Order<'a> {
    /// What to do.
    pub mode: Mode,
    /// Whether `--share` is given.
    pub share: bool,
    /// Whether `--raw` is given.
    pub raw: bool,
    /// Whether `--trace` is given.
    pub trace: bool,
    /// The file of `--params`.
    pub params: Option<&'a str>,
    /// The file of `--stall`.
    pub stall: Option<&'a str>,
    /// Where the program comes from.
    pub source: Source<'a>,
    /// The last extent of all arrays, in the modes `plain` and `sim`.
    pub rows: Option<u64>,
    /// The file that `compile` writes to.
    pub target: Option<&'a str>,
    /// The files of the arrays in order, in the modes `plain` and `sim`; else none.
    pub names: Vec<&'a str>,
}

/// Why words give no order.
#[derive(Clone, Copy, Debug, PartialEq, Eq, Error)]
pub enum OrderFail {
    /// The words aren't taken.
    #[error("the words aren't taken")]
    Usage,
    /// Memory was refused.
    #[error("out of memory")]
    Memory,
}

impl From<AllocError> for OrderFail {
    ghost use Rattle.command_words.specs.declared.order.OrderFail.TheVariants.{Memory};
    ghost use Rattle.std.specs.Prelude.{◌≡◌};

    ghost from_gives = { λ _ e. e ≡ Memory };

    fn from(_e: AllocError) -> OrderFail {
        OrderFail::Memory
    }
}
