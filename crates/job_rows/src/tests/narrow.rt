//! A sink that takes few bytes at a time, and at last fails.

ghost use Rattle.std.specs.Prelude.{◌<◌, ◌^◌, ⊤};

use soda_io::{IoErr, Sink};
use std::alloc::Global;

/// A sink for tests: it takes at most ten bytes at a time, so many times, and then fails.
#[derive(Drop)]
pub(crate) struct Narrow {
    taken: Vec<u8>,
    writes: u64,
    faults: u64,
    ghost counted: { faults < 2 ^ 64 },
}

impl Narrow {
    /// A sink that has taken nothing, and takes bytes so many times.
    pub(crate) fn new(alloc: Global, writes: u64) -> Narrow {
        Narrow {
            taken: Vec::new(alloc),
            writes,
            faults: 0,
        }
    }

    /// The bytes taken so far.
    pub(crate) fn bytes(&self) -> &[u8] {
        &self.taken
    }
}

impl Sink for Narrow {
    ghost tells = { ⊤ };

    ghost taken = { λ s. s.taken.items };

    ghost faults = { λ s. s.faults };

    fn write(&mut self, bytes: &[u8]) -> Result<usize, IoErr> {
        if self.writes == 0 {
            self.faults = self.faults.saturating_add(1);
            return Err(IoErr::Failed);
        }
        let count = if bytes.len() < 10 { bytes.len() } else { 10 };
        if self.taken.extend_from_slice(&bytes[..count]).is_err() {
            return Err(IoErr::Memory);
        }
        self.writes -= 1;
        Ok(count)
    }

    ghost below = { λ s. s.counted };
}
