use soda_ir::LimitKind;
use std::alloc::AllocError;
use thiserror::Error;

/// Why there is no network.
#[derive(Clone, Copy, Debug, PartialEq, Eq, Error)]
pub enum BuildRefusal {
    /// A limit that is passed, with the number that passes it: the greatest delay in cells, the storage of all tensors
    /// together in cells, or the number of modules.
    #[error("the limit {0:?} is passed: {1}")]
    Limit(LimitKind, u128),
    /// Memory was refused.
    #[error("out of memory")]
    Memory,
}

impl From<AllocError> for BuildRefusal {
    ghost use Rattle.net_build.specs.declared.refusal.BuildRefusal.TheVariants.{Memory};
    ghost use Rattle.std.specs.Prelude.{◌≡◌};

    ghost from_gives = { λ _ e. e ≡ Memory };

    fn from(_e: AllocError) -> BuildRefusal {
        BuildRefusal::Memory
    }
}
