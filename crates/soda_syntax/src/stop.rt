use crate::NoMemory;

/// Why no statement was read.
pub enum Stop {
    /// The token of this number is wrong, or the tokens end before it.
    Wrong(usize),
    /// Want of memory.
    Memory,
}

impl From<NoMemory> for Stop {
    ghost use Rattle.std.specs.Prelude.{◌≡◌};
    ghost use Rattle.soda_syntax.specs.declared.stop.Stop.{Stop};

    ghost from_gives = { λ _ stop. stop ≡ Stop.Memory };

    fn from(_error: NoMemory) -> Self {
        Stop::Memory
    }
}
