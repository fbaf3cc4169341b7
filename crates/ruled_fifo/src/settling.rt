//! Ending a queue.
ghost use Rattle.std.specs.Prelude.{◌≡◌, ℤ, List, true, [], ◌≤◌, ◌++◌, length};
ghost use Rattle.crossbeam_queue.specs.Passes.{view, IsPassOf, ruled_capacity};
ghost use Rattle.ruled_fifo.specs.rule.Steps.{HasRest};
ghost use Rattle.ruled_fifo.specs.Ends.{sent, taken, send_capacity, AreOfOneQueue};

use crate::ends::{SendEnd, TakeEnd};
use crate::rule::{Hand, Line};
use crate::steps;
use std::sync::Wait;

/// How many values the queue still holds, which are taken out: what was taken and then they are what
/// was sent, and they are no more than the capacity.
pub fn settle<R: Wait>(rt: &R, send: SendEnd, take: TakeEnd) -> u64
    requires { AreOfOneQueue send take }
    ensures held { (held : List ℤ) × (sent send ≡ taken take ++ held) × (result ≡ length held) }
    ensures most { result ≤ send_capacity send }
{
    let (line, pass) = send.join(take);
    take_out(rt, &line, pass)
}

/// Takes out what the queue holds, and counts it.
fn take_out<R: Wait>(rt: &R, line: &Line, mut pass: Hand) -> u64
    requires queue { IsPassOf line.now pass }
    requires both { ((view pass).sends ≡ true) × ((view pass).takes ≡ true) × ((view pass).drained ≡ []) }
    ensures held { (held : List ℤ) × ((view pass).sent ≡ (view pass).taken ++ held) × (result ≡ length held) }
    ensures most { result ≤ ruled_capacity line.now }
{
    let most = steps::count(rt, line, &mut pass);
    let mut held = 0u64;
    for _ in rt.forever() {
        match steps::drain(rt, line, &mut pass) {
            Some(_) => held += 1,
            None => break,
        }
    }
    prove!(held as usize <= most);
    held
}
