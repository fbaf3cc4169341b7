//! The rule of a queue: what its passes know, and what each kind of step tells them.
ghost use Rattle.std.specs.Prelude.{◌≡◌};

use crossbeam_queue::protocol::{Join, Lesson, Outcome, Protocol, Split};
use crossbeam_queue::{Pass, RuledArrayQueue};
use std::collections::LinkedList;

/// What a pass may do and what it keeps: the values that were sent, those that were taken, those
/// that were taken out since the two passes were joined, and its misses. No value of it is made.
pub struct View {
    pub sends: bool,
    pub takes: bool,
    pub sent: LinkedList<i128>,
    pub taken: LinkedList<i128>,
    pub drained: LinkedList<i128>,
    pub misses: u64,
}

/// A queue under the rule.
pub type Line = RuledArrayQueue<i128, View, InOrder>;

/// A pass of such a queue.
pub type Hand = Pass<i128, View>;

/// The rule.
pub struct InOrder;

impl Protocol<i128, View> for InOrder {
    ghost use Rattle.ruled_fifo.specs.rule.Kept.{Kept};
    ghost use Rattle.ruled_fifo.specs.rule.Steps.{newcomer};

    ghost holds = { Kept };

    ghost first = { newcomer };
}

/// The two passes of a queue, made of one and joined to one.
pub struct TwoEnds;

impl Split<View> for TwoEnds {
    ghost use Rattle.ruled_fifo.specs.rule.Steps.{sender_of, taker_of};

    ghost left = { sender_of };

    ghost right = { taker_of };
}

impl Join<View> for TwoEnds {
    ghost use Rattle.ruled_fifo.specs.rule.Steps.{joined, spent};

    ghost both = { joined };

    ghost spent = { spent };
}

/// A try that found the queue full or empty: the pass that tried has one miss more.
pub struct Miss;

impl Split<View> for Miss {
    ghost use Rattle.ruled_fifo.specs.rule.Steps.{missed, spent};

    ghost left = { missed };

    ghost right = { λ _. spent };
}

/// A push by the pass that sends.
pub struct Sending;

impl Outcome<i128, View> for Sending {
    ghost use Rattle.ruled_fifo.specs.rule.Steps.{with_sent};

    ghost then = { λ v x w. w ≡ with_sent v x };
}

impl Lesson<i128, View> for Sending {
    ghost use Rattle.ruled_fifo.specs.rule.Steps.{EndsSent};

    ghost fact = { EndsSent };
}

/// A pop by the pass that takes.
pub struct Taking;

impl Outcome<i128, View> for Taking {
    ghost use Rattle.ruled_fifo.specs.rule.Steps.{with_taken};

    ghost then = { λ v x w. w ≡ with_taken v x };
}

impl Lesson<i128, View> for Taking {
    ghost use Rattle.std.specs.Prelude.{⊤};

    ghost fact = { λ v items. ⊤ };
}

/// A pop by the joined pass.
pub struct Draining;

impl Outcome<i128, View> for Draining {
    ghost use Rattle.ruled_fifo.specs.rule.Steps.{with_drained, HasRest};

    ghost then = { λ v x w. (w ≡ with_drained v x) × HasRest w };
}

impl Lesson<i128, View> for Draining {
    ghost use Rattle.ruled_fifo.specs.rule.Steps.{Leaves};

    ghost fact = { Leaves };
}
