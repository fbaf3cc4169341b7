use std::alloc::AllocError;
use thiserror::Error;

/// Why a file of lines can't be used.
#[derive(Clone, Copy, Debug, PartialEq, Eq, Error)]
pub enum LineFail {
    /// The line of this number, from 1, is refused, and with 0 the file as a whole.
    #[error("line {0}")]
    Line(u64),
    /// Memory was refused.
    #[error("out of memory")]
    Memory,
}

impl From<AllocError> for LineFail {
    ghost use Rattle.param_lines.specs.declared.line_fail.LineFail.TheVariants.{Memory};
    ghost use Rattle.std.specs.Prelude.{◌≡◌};

    ghost from_gives = { λ _ e. e ≡ Memory };

    fn from(_e: AllocError) -> LineFail {
        LineFail::Memory
    }
}
