use std::alloc::AllocError;
use thiserror::Error;

/// Why bytes give no design.
#[derive(Clone, Copy, Debug, PartialEq, Eq, Error)]
pub enum TextFail {
    /// They are no text of a design. The line of this number, counted from 1, is the first that breaks its rule; it is
    /// 0 where there are too many bytes.
    #[error("line {0} is refused")]
    Refused(u64),
    /// Memory was refused.
    #[error("out of memory")]
    Memory,
}

impl From<AllocError> for TextFail {
    ghost use Rattle.design_reader.specs.declared.fail.TextFail.TheVariants.{Memory};
    ghost use Rattle.std.specs.Prelude.{◌≡◌};

    ghost from_gives = { λ _ e. e ≡ Memory };

    fn from(_e: AllocError) -> TextFail {
        TextFail::Memory
    }
}
