//! Sending.
ghost use Rattle.std.specs.Prelude.{◌≡◌, ◌+◌, [], ◌∷◌, ◌++◌, IfErr, OnErr, MatchResult};
ghost use Rattle.ruled_fifo.specs.Ends.{sent, send_misses, send_capacity, SendsToSame, EndsWithMany};

use crate::ends::SendEnd;
use std::sync::Wait;

/// The queue was full: the value comes back.
#[derive(Clone, Copy)]
pub struct Full(pub i128);

impl SendEnd {
    /// Sends a value. `Full` only where a try of this call found the queue full: this end has one miss
    /// more, the values sent last were as many as the queue can hold, and nothing was sent.
    pub fn offer<R: Wait>(&mut self, rt: &R, v: i128) -> Result<(), Full>
        ensures queue { SendsToSame self.old self.new }
        ensures sent { MatchResult result
            (λ _. sent self.new ≡ sent self.old ++ v ∷ [])
            (λ _. sent self.new ≡ sent self.old) }
        ensures misses { MatchResult result
            (λ _. send_misses self.new ≡ send_misses self.old)
            (λ _. send_misses self.new ≡ send_misses self.old + 1) }
        ensures back { IfErr result (λ full. full.0 ≡ v) }
        ensures full { OnErr result (EndsWithMany (send_capacity self.old) (sent self.old)) }
    {
        match self.push(rt, v) {
            Ok(()) => Ok(()),
            Err(back) => Err(Full(back)),
        }
    }
}
