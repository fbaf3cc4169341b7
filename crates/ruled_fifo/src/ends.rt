//! The two ends of a queue, and the steps that are made at them.
ghost use Rattle.std.specs.Prelude.{◌≡◌, true, false, MatchOption, MatchResult};
ghost use Rattle.std.specs.Arc.{arc_value};
ghost use Rattle.crossbeam_queue.specs.Fifo.{Held};
ghost use Rattle.crossbeam_queue.specs.Passes.{view, IsPassOf, IsSamePass, ruled_capacity};
ghost use Rattle.ruled_fifo.specs.rule.Steps.{with_sent, with_taken, missed, joined, EndsSent};

use crate::rule::{Hand, Line, Sending, Taking, TwoEnds};
use crate::steps::miss;
use std::alloc::Global;
use std::sync::{Arc, Wait};

/// The end that sends. It keeps the list of what was sent, and its misses: the number of its tries
/// that found the queue full.
#[derive(Drop)]
pub struct SendEnd {
    line: Arc<Line, Global>,
    pass: Hand,
    ghost of_line: { IsPassOf (arc_value line) pass },
    ghost may_send: { (view pass).sends ≡ true },
}

/// The end that takes. It keeps the list of what was taken, and its misses: the number of its tries
/// that found the queue empty.
#[derive(Drop)]
pub struct TakeEnd {
    line: Arc<Line, Global>,
    pass: Hand,
    ghost of_line: { IsPassOf (arc_value line) pass },
    ghost may_take: { ((view pass).takes ≡ true) × ((view pass).sends ≡ false) },
}

impl SendEnd {
    /// The end that sends, of its pass.
    pub(crate) fn of(line: Arc<Line, Global>, pass: Hand) -> SendEnd
        requires { IsPassOf (arc_value line) pass × ((view pass).sends ≡ true) }
        ensures { (result.line ≡ line) × (result.pass ≡ pass) }
    {
        SendEnd { line, pass }
    }

    /// A push, which succeeds or finds the queue full.
    pub(crate) fn push<R: Wait>(&mut self, rt: &R, value: i128) -> Result<(), i128>
        ensures queue { IsSamePass self.old.pass self.new.pass × (arc_value self.new.line ≡ arc_value self.old.line) }
        ensures rule { MatchResult result
            (λ _. view self.new.pass ≡ with_sent (view self.old.pass) value)
            (λ x. (x ≡ value) × (view self.new.pass ≡ missed (view self.old.pass))
            × Held (ruled_capacity (arc_value self.old.line)) (EndsSent (view self.old.pass))) }
    {
        match self.line.push_as::<Sending, R>(rt, &mut self.pass, value) {
            Ok(()) => Ok(()),
            Err(back) => {
                miss(&self.line, &mut self.pass);
                Err(back)
            }
        }
    }

    /// Joins the two passes of a queue.
    pub(crate) fn join(self, other: TakeEnd) -> (Arc<Line, Global>, Hand)
        requires { other.pass.table_id ≡ self.pass.table_id }
        ensures queue { (result.0 ≡ self.line) × IsPassOf (arc_value result.0) result.1 }
        ensures rule { view result.1 ≡ joined (view self.pass) (view other.pass) }
    {
        let SendEnd { line, mut pass } = self;
        line.absorb::<TwoEnds>(&mut pass, other.into_pass());
        (line, pass)
    }
}

impl TakeEnd {
    /// The end that takes, of its pass.
    pub(crate) fn of(line: Arc<Line, Global>, pass: Hand) -> TakeEnd
        requires { IsPassOf (arc_value line) pass × ((view pass).takes ≡ true) × ((view pass).sends ≡ false) }
        ensures { (result.line ≡ line) × (result.pass ≡ pass) }
    {
        TakeEnd { line, pass }
    }

    /// A pop by the pass that takes, which succeeds or finds the queue empty.
    pub(crate) fn pop<R: Wait>(&mut self, rt: &R) -> Option<i128>
        ensures queue { IsSamePass self.old.pass self.new.pass × (arc_value self.new.line ≡ arc_value self.old.line) }
        ensures rule { MatchOption result
            (view self.new.pass ≡ missed (view self.old.pass))
            (λ x. view self.new.pass ≡ with_taken (view self.old.pass) x) }
    {
        match self.line.pop_as::<Taking, R>(rt, &mut self.pass) {
            Some(value) => Some(value),
            None => {
                miss(&self.line, &mut self.pass);
                None
            }
        }
    }

    /// The pass of the end.
    fn into_pass(self) -> Hand
        ensures pass { result ≡ self.pass }
        ensures queue { IsPassOf (arc_value self.line) result }
        ensures takes { ((view result).takes ≡ true) × ((view result).sends ≡ false) }
    {
        self.pass
    }
}
