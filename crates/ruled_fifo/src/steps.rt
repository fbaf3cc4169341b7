//! The note of a try that failed, and the steps of the joined pass.
ghost use Rattle.std.specs.Prelude.{◌≡◌, true, [], ◌≤◌, MatchOption};
ghost use Rattle.crossbeam_queue.specs.Fifo.{Held};
ghost use Rattle.crossbeam_queue.specs.Passes.{view, IsPassOf, IsSamePass, ruled_capacity};
ghost use Rattle.ruled_fifo.specs.rule.Steps.{with_drained, missed, Leaves, HasRest};

use crate::rule::{Draining, Hand, Line, Miss};
use std::sync::Wait;

/// Notes a try that found the queue full or empty.
pub(crate) fn miss(line: &Line, pass: &mut Hand)
    requires { IsPassOf line.now pass.old }
    ensures queue { IsSamePass pass.old pass.new }
    ensures rule { view pass.new ≡ missed (view pass.old) }
{
    drop(line.another::<Miss>(pass));
}

/// A pop by the joined pass, which succeeds or finds the queue empty.
pub(crate) fn drain<R: Wait>(rt: &R, line: &Line, pass: &mut Hand) -> Option<i128>
    requires queue { IsPassOf line.now pass.old }
    requires both { ((view pass.old).sends ≡ true) × ((view pass.old).takes ≡ true) }
    ensures queue { IsSamePass pass.old pass.new }
    ensures rule { MatchOption result
        ((view pass.new ≡ missed (view pass.old)) × Leaves (view pass.old) [])
        (λ x. (view pass.new ≡ with_drained (view pass.old) x) × HasRest (view pass.new)) }
{
    match line.pop_as::<Draining, R>(rt, pass) {
        Some(value) => Some(value),
        None => {
            miss(line, pass);
            None
        }
    }
}

/// How many values the queue holds, of which the joined pass knows that they are the rest.
pub(crate) fn count<R: Wait>(rt: &R, line: &Line, pass: &mut Hand) -> usize
    requires queue { IsPassOf line.now pass.old }
    requires both { ((view pass.old).sends ≡ true) × ((view pass.old).takes ≡ true) }
    ensures queue { IsSamePass pass.old pass.new × (view pass.new ≡ view pass.old) }
    ensures most { result ≤ ruled_capacity line.now }
    ensures rule { Held result (Leaves (view pass.old)) }
{
    line.len_as::<Draining, R>(rt, pass)
}
