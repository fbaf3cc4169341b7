ghost use Rattle.std.specs.Prelude.{◌≡◌, ◌<◌, ◌≤◌, ◌+◌, ◌&&◌, not, ℕ, List, length, slice_set, if◌then◌else◌};
ghost use Rattle.std.specs.List.{list_all};
ghost use Rattle.net_ir.specs.Nets.{exits};
ghost use Rattle.net_ir.specs.Firings.{takes, events};
ghost use Rattle.net_ir.specs.States.{turn_at, is_possible, has_firing, Run};
ghost use Rattle.net_ir.specs.CycleRun.{IsBetween, fires, visit, cycle, fired_among, held_among};
ghost use Rattle.net_ir.specs.declared.events.Event.TheVariants.{Take, Send};

use crate::counts::{Counts, firings_of, is_possible, module_count};
use crate::events::{Event, Turn};
use crate::moves::queue_of;
use crate::network::Network;

/// What a cycle did.
#[derive(Clone, Copy)]
pub struct CycleCount {
    /// The modules that fired.
    pub fired: u32,
    /// The modules that had a firing left and didn't fire.
    pub held: u32,
}

/// Whether each take of a module's firing is possible.
fn takes_possible(net: &Network, counts: &Counts, module: u32, firing: u64) -> bool
    requires started { counts.now.network ≡ net.now }
    requires known { «module» < length net.now.modules }
    ensures { result ≡ list_all (λ n. is_possible net.now counts.now.state (Take n)) (takes net.now «module» firing) }
{
    let ports = net.entrances(module);
    for queue in ports {
        if queue_of(net, *queue).lead <= firing && !is_possible(net, counts, Event::Take(*queue)) {
            return false;
        }
    }
    true
}

/// Whether each send of a module's firing is possible.
fn sends_possible(net: &Network, counts: &Counts, module: u32) -> bool
    requires started { counts.now.network ≡ net.now }
    requires known { «module» < length net.now.modules }
    ensures { result ≡ list_all (λ n. is_possible net.now counts.now.state (Send n)) (exits net.now «module») }
{
    let sends = net.exits(module);
    for queue in sends {
        if !is_possible(net, counts, Event::Send(*queue)) {
            return false;
        }
    }
    true
}

/// Whether each event of a module's firing is possible.
fn all_possible(net: &Network, counts: &Counts, module: u32, firing: u64) -> bool
    requires started { counts.now.network ≡ net.now }
    requires known { «module» < length net.now.modules }
    ensures { result ≡ list_all (is_possible net.now counts.now.state) (events net.now «module» firing) }
{
    if takes_possible(net, counts, module, firing) {
        return sends_possible(net, counts, module);
    }
    false
}

/// Whether a module fires when it is visited.
fn fires(net: &Network, counts: &Counts, module: u32, stalled: &[bool]) -> bool
    requires started { counts.now.network ≡ net.now }
    requires flags { length stalled.now ≡ length net.now.modules }
    requires known { «module» < length net.now.modules }
    ensures { result ≡ fires net.now counts.now.firings stalled.now counts.now.state «module» }
{
    let turn = counts.turn(module);
    if stalled[module as usize] {
        return false;
    }
    if turn.fired >= firings_of(net, counts, module) {
        return false;
    }
    all_possible(net, counts, module, turn.fired)
}

/// Visits one module in a cycle: it fires wholly where it isn't stalled, has a firing left and each event of the firing
/// is possible, and else keeps its numbers. There is a flag for each module, and no module is in the midst of a firing.
/// The answer has a 1 where the module fired, or where it had a firing left and was held.
pub fn visit(net: &Network, counts: &mut Counts, module: u32, stalled: &[bool]) -> CycleCount
    requires started { counts.old.network ≡ net.now }
    requires flags { length stalled.now ≡ length net.now.modules }
    requires between { IsBetween counts.old.state }
    requires known { «module» < length net.now.modules }
    ensures state { counts.new
        ≡ record counts.old { state = visit net.now counts.old.firings stalled.now counts.old.state «module» } }
    ensures fired { result.fired
        ≡ (if fires net.now counts.old.firings stalled.now counts.old.state «module» then 1 else 0) }
    ensures held { result.held
        ≡ (if has_firing net.now counts.old.firings counts.old.state «module»
        && not (fires net.now counts.old.firings stalled.now counts.old.state «module») then 1 else 0) }
    ensures still_between { IsBetween counts.new.state }
{
    let turn = counts.turn(module);
    let firings = firings_of(net, counts, module);
    if fires(net, counts, module, stalled) {
        counts.set_turn(
            module,
            Turn {
                fired: turn.fired + 1,
                part: 0,
            },
        );
        return CycleCount { fired: 1, held: 0 };
    }
    if turn.fired < firings {
        CycleCount { fired: 0, held: 1 }
    } else {
        CycleCount { fired: 0, held: 0 }
    }
}

/// Does one cycle: each module is visited once, in firing order, and fires wholly where it isn't stalled, has a firing
/// left and each event of the firing is possible. There is a flag for each module, and no module is in the midst of a
/// firing.
pub fn count_cycle(net: &Network, counts: &mut Counts, stalled: &[bool]) -> CycleCount
    requires started { counts.old.network ≡ net.now }
    requires flags { length stalled.now ≡ length net.now.modules }
    requires between { IsBetween counts.old.state }
    ensures state { counts.new
        ≡ record counts.old { state = cycle net.now counts.old.firings stalled.now counts.old.state } }
    ensures fired { result.fired
        ≡ fired_among net.now counts.old.firings stalled.now counts.old.state (length net.now.modules) }
    ensures held { result.held
        ≡ held_among net.now counts.old.firings stalled.now counts.old.state (length net.now.modules) }
    ensures still_between { IsBetween counts.new.state }
    ensures events { (ms : List ℕ) × Run net.now counts.old.firings counts.old.state ms counts.new.state }
{
    let mut count = CycleCount { fired: 0, held: 0 };
    for module in 0..module_count(net, counts) {
        let one = visit(net, counts, module, stalled);
        count.fired += one.fired;
        count.held += one.held;
    }
    count
}
