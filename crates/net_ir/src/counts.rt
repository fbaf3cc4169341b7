ghost use Rattle.std.specs.Prelude.{◌≡◌, ◌≢◌, ◌<◌, ◌^◌, ◌↔◌, ◌⊎◌, ℕ, true, false, map, length, slice_set, IfOk, IsTrue, IsNone};
ghost use Rattle.net_ir.specs.Nets.{IsNetwork, IsOrderly};
ghost use Rattle.net_ir.specs.Firings.{firings_at};
ghost use Rattle.net_ir.specs.States.{unmoved, turn_at, taken, sent, zeros, after, is_possible, has_firing, can_step, waits_for, IsKnown, IsEvent, IsLawful, IsFinished};
ghost use Rattle.net_ir.specs.Waits.{NoRing, GoesOn};

use crate::NoMemory;
use crate::events::{Event, Turn};
use crate::moves::{next_event, queue_of, sent_by, taken_by, turn_after};
use crate::network::{Module, Network, Queue};
use std::alloc::Global;
use std::marker::Model;

/// The state of a machine that counts firings and events. It knows the network that it was started for, so that its
/// state is lawful by its type.
#[derive(Drop)]
pub struct Counts {
    modules: Vec<Module>,
    queues: Vec<Queue>,
    firings: u64,
    turns: Vec<Turn>,
}

impl Model for Counts {
    ghost use Rattle.net_ir.specs.States.{Machine, IsLawful};

    ghost Value = { Machine };

    ghost view = { λ c. record {
      network = record { modules = c.modules.items; queues = c.queues.items };
      firings = c.firings;
      state = c.turns.items;
    } };

    ghost invariant = { λ c.
        IsLawful (record { modules = c.modules.items; queues = c.queues.items }) c.firings c.turns.items };
}

impl Counts {
    /// The state of zeros, where a module of age 0 has this many firings, and each other module its age less.
    pub fn start(alloc: Global, net: &Network, firings: u64) -> Result<Counts, NoMemory>
        ensures { IfOk result (λ c. c ≡ record { network = net.now; firings = firings; state = zeros net.now }) }
    {
        let modules = Vec::from_slice(alloc, net.modules())?;
        let queues = Vec::from_slice(alloc, net.queues())?;
        let turns = unmoved_turns(alloc, net.modules())?;
        Ok(Counts {
            modules,
            queues,
            firings,
            turns,
        })
    }

    /// The firings that a module has completed.
    pub fn fired(&self, module: u32) -> u64
        requires { «module» < length self.now.network.modules }
        ensures value { result ≡ (turn_at self.now.state «module»).fired }
        ensures lawful { IsLawful self.now.network self.now.firings self.now.state }
    {
        self.turns[module as usize].fired
    }

    /// The events that a module has done in its running firing.
    pub fn part(&self, module: u32) -> u32
        requires { «module» < length self.now.network.modules }
        ensures value { result ≡ (turn_at self.now.state «module»).part }
        ensures lawful { IsLawful self.now.network self.now.firings self.now.state }
    {
        self.turns[module as usize].part
    }

    /// How far a module has come.
    pub(crate) fn turn(&self, module: u32) -> Turn
        requires { «module» < length self.now.network.modules }
        ensures value { result ≡ turn_at self.now.state «module» }
        ensures lawful { IsLawful self.now.network self.now.firings self.now.state }
        ensures small { self.now.firings < 2 ^ 64 }
    {
        // A number that is read is known to fit its type.
        let _firings = self.firings;
        self.turns[module as usize]
    }

    /// The firings of a module of age 0.
    pub(crate) fn firings(&self) -> u64
        ensures value { result ≡ self.now.firings }
        ensures lawful { IsLawful self.now.network self.now.firings self.now.state }
    {
        self.firings
    }

    /// Moves a module on.
    pub(crate) fn set_turn(&mut self, module: u32, turn: Turn)
        requires known { «module» < length self.old.network.modules }
        requires lawful { IsLawful self.old.network self.old.firings (slice_set self.old.state «module» turn) }
        ensures { self.new ≡ record self.old { state = slice_set self.old.state «module» turn } }
    {
        self.turns[module as usize] = turn;
    }
}

/// A turn for each module, with nothing done.
fn unmoved_turns(alloc: Global, modules: &[Module]) -> Result<Vec<Turn>, NoMemory>
    ensures { IfOk result (λ turns. turns.items ≡ map (λ _. unmoved) modules.now) }
{
    let mut turns = Vec::new(alloc);
    for _module in modules {
        turns.push(Turn { fired: 0, part: 0 })?;
    }
    Ok(turns)
}

/// The number of modules.
pub(crate) fn module_count(net: &Network, counts: &Counts) -> u32
    requires started { counts.now.network ≡ net.now }
    ensures value { result ≡ length net.now.modules }
    ensures lawful { IsLawful net.now counts.now.firings counts.now.state }
    ensures network { IsNetwork net.now }
{
    // Whatever counts give comes with the fact that their state is lawful.
    let _firings = counts.firings();
    net.modules().len() as u32
}

/// How many firings a module has.
pub(crate) fn firings_of(net: &Network, counts: &Counts, module: u32) -> u64
    requires { «module» < length net.now.modules }
    ensures value { result ≡ firings_at net.now counts.now.firings «module» }
    ensures network { IsNetwork net.now }
{
    counts
        .firings()
        .saturating_sub(net.modules()[module as usize].age())
}

/// The takes of a queue.
fn taken(net: &Network, counts: &Counts, queue: u32) -> u64
    requires started { counts.now.network ≡ net.now }
    requires known { queue < length net.now.queues }
    ensures value { result ≡ taken net.now counts.now.state queue }
    ensures lawful { IsLawful net.now counts.now.firings counts.now.state }
{
    let to = queue_of(net, queue).to;
    let turn = counts.turn(to);
    taken_by(net, queue, turn)
}

/// The sends of a queue.
fn sent(net: &Network, counts: &Counts, queue: u32) -> u64
    requires started { counts.now.network ≡ net.now }
    requires known { queue < length net.now.queues }
    ensures value { result ≡ sent net.now counts.now.state queue }
    ensures lawful { IsLawful net.now counts.now.firings counts.now.state }
{
    let from = queue_of(net, queue).from;
    let turn = counts.turn(from);
    sent_by(net, queue, turn)
}

/// Whether an event's queue lets it be done.
pub(crate) fn is_possible(net: &Network, counts: &Counts, event: Event) -> bool
    requires started { counts.now.network ≡ net.now }
    requires known { IsKnown net.now event }
    ensures { result ≡ is_possible net.now counts.now.state event }
{
    match event {
        Event::Take(queue) => taken(net, counts, queue) < sent(net, counts, queue),
        Event::Send(queue) => {
            let held = sent(net, counts, queue) - taken(net, counts, queue);
            held < queue_of(net, queue).capacity
        }
        Event::Close => true,
    }
}

/// Whether a module can do its next event: it has a firing left, and the event's queue lets it be done.
pub fn can_step(net: &Network, counts: &Counts, module: u32) -> bool
    requires started { counts.now.network ≡ net.now }
    requires known { «module» < length net.now.modules }
    ensures value { result ≡ can_step net.now counts.now.firings counts.now.state «module» }
    ensures event { IsTrue result ↔ IsEvent net.now counts.now.firings counts.now.state «module» }
{
    let turn = counts.turn(module);
    turn.fired < firings_of(net, counts, module)
        && is_possible(net, counts, next_event(net, module, turn))
}

/// Does a module's next event.
pub fn step(net: &Network, counts: &mut Counts, module: u32)
    requires started { counts.old.network ≡ net.now }
    requires known { «module» < length net.now.modules }
    requires possible { can_step net.now counts.old.firings counts.old.state «module» ≡ true }
    ensures after { counts.new ≡ record counts.old { state = after net.now counts.old.state «module» } }
    ensures others { (m : ℕ) → m ≢ «module» → turn_at counts.new.state m ≡ turn_at counts.old.state m }
    ensures lawful { IsLawful net.now counts.new.firings counts.new.state }
{
    let turn = counts.turn(module);
    let next = turn_after(next_event(net, module, turn), turn);
    counts.set_turn(module, next);
}

/// The module that a module waits for.
fn other_end(net: &Network, counts: &Counts, module: u32) -> Option<u32>
    requires started { counts.now.network ≡ net.now }
    requires known { «module» < length net.now.modules }
    ensures value { result ≡ waits_for net.now counts.now.firings counts.now.state «module» }
    ensures lawful { IsLawful net.now counts.now.firings counts.now.state }
    ensures network { IsNetwork net.now }
{
    let turn = counts.turn(module);
    let event = next_event(net, module, turn);
    let can = turn.fired < firings_of(net, counts, module);
    if !can || is_possible(net, counts, event) {
        return None;
    }
    match event {
        Event::Take(queue) => Some(queue_of(net, queue).from),
        Event::Send(queue) => Some(queue_of(net, queue).to),
        Event::Close => None,
    }
}

/// The module at the other end of the queue that stops a module's next event. None exactly where the module has no
/// firing left or can do the event.
pub fn waits_for(net: &Network, counts: &Counts, module: u32) -> Option<u32>
    requires started { counts.now.network ≡ net.now }
    requires known { «module» < length net.now.modules }
    ensures value { result ≡ waits_for net.now counts.now.firings counts.now.state «module» }
    ensures none { IsNone result
        ↔ ((has_firing net.now counts.now.firings counts.now.state «module» ≡ false)
        ⊎ (can_step net.now counts.now.firings counts.now.state «module» ≡ true)) }
    ensures no_ring { IsOrderly net.now → NoRing net.now counts.now.firings counts.now.state }
{
    other_end(net, counts, module)
}

/// Whether all modules have done their firings.
fn all_done(net: &Network, counts: &Counts) -> bool
    requires started { counts.now.network ≡ net.now }
    ensures value { IsTrue result ↔ IsFinished net.now counts.now.firings counts.now.state }
    ensures lawful { IsLawful net.now counts.now.firings counts.now.state }
    ensures network { IsNetwork net.now }
{
    for module in 0..module_count(net, counts) {
        if counts.turn(module).fired != firings_of(net, counts, module) {
            return false;
        }
    }
    true
}

/// Whether no module has a firing left.
pub fn finished(net: &Network, counts: &Counts) -> bool
    requires started { counts.now.network ≡ net.now }
    ensures value { IsTrue result ↔ IsFinished net.now counts.now.firings counts.now.state }
    ensures goes_on { IsOrderly net.now → GoesOn net.now counts.now.firings counts.now.state }
{
    all_done(net, counts)
}
