//! Taking.
ghost use Rattle.std.specs.Prelude.{◌≡◌, ◌+◌, [], ◌∷◌, ◌++◌, MatchResult};
ghost use Rattle.ruled_fifo.specs.Ends.{taken, take_misses, TakesFromSame};

use crate::ends::TakeEnd;
use std::sync::Wait;

/// The queue was empty.
#[derive(Clone, Copy)]
pub struct Empty;

impl TakeEnd {
    /// Takes the oldest value that the queue holds. `Empty` only where a try of this call found the
    /// queue empty: this end has one miss more, and nothing was taken.
    pub fn take<R: Wait>(&mut self, rt: &R) -> Result<i128, Empty>
        ensures queue { TakesFromSame self.old self.new }
        ensures taken { MatchResult result
            (λ x. taken self.new ≡ taken self.old ++ x ∷ [])
            (λ _. taken self.new ≡ taken self.old) }
        ensures misses { MatchResult result
            (λ _. take_misses self.new ≡ take_misses self.old)
            (λ _. take_misses self.new ≡ take_misses self.old + 1) }
    {
        match self.pop(rt) {
            Some(value) => Ok(value),
            None => Err(Empty),
        }
    }
}
