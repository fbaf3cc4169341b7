ghost use Rattle.std.specs.Prelude.{◌≡◌, ◌<◌, ◌≤◌, ◌+◌, ◌^◌, nat_eq, length};
ghost use Rattle.std.specs.List.{list_any};
ghost use Rattle.net_ir.specs.Nets.{queue_at, IsNetwork};
ghost use Rattle.net_ir.specs.declared.events.Event.{Event};
ghost use Rattle.net_ir.specs.Firings.{takes};
ghost use Rattle.net_ir.specs.States.{taken_now, sent_now, taken_by, sent_by, next_event, turn_after, IsKnown};

use crate::events::{Event, Turn};
use crate::network::{Network, Queue};

/// The queue of a number.
pub(crate) fn queue_of(net: &Network, number: u32) -> Queue
    requires { number < length net.now.queues }
    ensures value { result ≡ queue_at net.now.queues number }
    ensures from { result.from < length net.now.modules }
    ensures to { result.to < length net.now.modules }
{
    net.queues()[number as usize]
}

/// The next event of a module.
pub(crate) fn next_event(net: &Network, module: u32, turn: Turn) -> Event
    requires { «module» < length net.now.modules }
    ensures value { result ≡ next_event net.now «module» turn }
    ensures known { IsKnown net.now result }
    ensures fits { (result ≡ Event.Close → ⊥) → turn.part + 1 < 2 ^ 32 }
    ensures network { IsNetwork net.now }
{
    let ports = net.entrances(module);
    let sends = net.exits(module);
    let mut left = turn.part;
    for queue in ports {
        if queue_of(net, *queue).lead <= turn.fired {
            if left == 0 {
                return Event::Take(*queue);
            }
            left -= 1;
        }
    }
    match sends.get(left as usize) {
        Some(queue) => Event::Send(*queue),
        None => Event::Close,
    }
}

/// Whether a module's running firing has taken from a queue.
fn has_taken(net: &Network, module: u32, turn: Turn, queue: u32) -> bool
    requires { «module» < length net.now.modules }
    ensures { result ≡ list_any (nat_eq queue) (taken_now net.now «module» turn) }
{
    if turn.part == 0 {
        return false;
    }
    let ports = net.entrances(module);
    let mut left = turn.part;
    for other in ports {
        if queue_of(net, *other).lead <= turn.fired {
            if left == 0 {
                return false;
            }
            if *other == queue {
                return true;
            }
            left -= 1;
        }
    }
    false
}

/// How many takes a firing of a module has.
fn take_count(net: &Network, module: u32, firing: u64) -> u32
    requires { «module» < length net.now.modules }
    ensures { result ≡ length (takes net.now «module» firing) }
{
    let ports = net.entrances(module);
    let mut count = 0;
    for queue in ports {
        if queue_of(net, *queue).lead <= firing {
            count += 1;
        }
    }
    count
}

/// Whether a module's running firing has sent into a queue.
fn has_sent(net: &Network, module: u32, turn: Turn, queue: u32) -> bool
    requires { «module» < length net.now.modules }
    ensures { result ≡ list_any (nat_eq queue) (sent_now net.now «module» turn) }
{
    if turn.part == 0 {
        return false;
    }
    let sends = net.exits(module);
    let mut left = turn
        .part
        .saturating_sub(take_count(net, module, turn.fired));
    for other in sends {
        if left == 0 {
            return false;
        }
        if *other == queue {
            return true;
        }
        left -= 1;
    }
    false
}

/// The takes of a queue, by what its receiver has done.
pub(crate) fn taken_by(net: &Network, number: u32, turn: Turn) -> u64
    requires known { number < length net.now.queues }
    requires fits { taken_by net.now number turn < 2 ^ 64 }
    ensures { result ≡ taken_by net.now number turn }
{
    let queue = queue_of(net, number);
    let whole = turn.fired.saturating_sub(queue.lead);
    if has_taken(net, queue.to, turn, number) {
        whole + 1
    } else {
        whole
    }
}

/// The sends of a queue, by what its sender has done.
pub(crate) fn sent_by(net: &Network, number: u32, turn: Turn) -> u64
    requires known { number < length net.now.queues }
    requires fits { sent_by net.now number turn < 2 ^ 64 }
    ensures { result ≡ sent_by net.now number turn }
{
    let queue = queue_of(net, number);
    if has_sent(net, queue.from, turn, number) {
        turn.fired + 1
    } else {
        turn.fired
    }
}

/// How far a module has come after an event.
pub(crate) fn turn_after(event: Event, turn: Turn) -> Turn
    requires part { (event ≡ Event.Close → ⊥) → turn.part + 1 < 2 ^ 32 }
    requires fired { turn.fired + 1 < 2 ^ 64 }
    ensures { result ≡ turn_after event turn }
{
    match event {
        Event::Take(_) | Event::Send(_) => Turn {
            fired: turn.fired,
            part: turn.part + 1,
        },
        Event::Close => Turn {
            fired: turn.fired + 1,
            part: 0,
        },
    }
}
