ghost use Rattle.std.specs.Prelude.{◌≡◌, ◌<◌, ◌≤◌, ◌+◌, ◌^◌, ℕ, [], length, IfOk, All};
ghost use Rattle.net_ir.specs.Nets.{age, queue_at, put_by_port, entrances, exits, IsNetwork};
ghost use Rattle.net_ir.specs.machine.Table.{IsListed};

use crate::NoMemory;
use std::alloc::Global;
use std::marker::Model;

/// A module of a network. Tensors are named by their staged numbers, lanes count from 0.
#[derive(Clone, Copy)]
pub enum Module {
    /// Sends the cells of an input.
    Source { tensor: u32 },
    /// Hands on what it takes, `tap` cycles after it was sent.
    Forward { tensor: u32, lane: u32, tap: u64 },
    /// Computes the cells of a lane of a tensor.
    Compute { tensor: u32, lane: u32 },
    /// Collects the cells of an output.
    Sink { tensor: u32 },
}

/// A queue of a network. Its ends are numbers of modules.
#[derive(Clone, Copy)]
pub struct Queue {
    /// The module that sends.
    pub from: u32,
    /// The module that takes.
    pub to: u32,
    /// The receiver's port, which no other queue to this receiver has.
    pub port: u32,
    /// The greatest number of items in the queue.
    pub capacity: u64,
    /// The number of firings of the receiver that take nothing from it, at the start.
    pub lead: u64,
}

/// The numbers of the queues at a module: those to it by port, and those from it in queue order.
#[derive(Drop)]
struct Ends {
    entrances: Vec<u32>,
    exits: Vec<u32>,
}

/// Modules in firing order, and the queues between them in queue order.
#[derive(Drop)]
pub struct Network {
    modules: Vec<Module>,
    queues: Vec<Queue>,
    ends: Vec<Ends>,
}

impl Model for Network {
    ghost use Rattle.net_ir.specs.Nets.{Net};

    ghost Value = { Net };

    ghost use Rattle.net_ir.specs.machine.Table.{IsTable};

    ghost view = { λ n. record { modules = n.modules.items; queues = n.queues.items } };

    ghost invariant = { λ n. IsTable (record { modules = n.modules.items; queues = n.queues.items }) n.ends.items };
}

impl Module {
    /// The tap of a forwarding module, and 0 for every other module.
    pub fn age(self) -> u64
        ensures { result ≡ age self }
    {
        match self {
            Module::Forward { tap, .. } => tap,
            Module::Source { .. } | Module::Compute { .. } | Module::Sink { .. } => 0,
        }
    }
}

impl Network {
    /// A network of these modules, in firing order, and these queues.
    pub fn new(alloc: Global, modules: Vec<Module>, queues: Vec<Queue>) -> Result<Network, NoMemory>
        requires network { IsNetwork (record { modules = modules.items; queues = queues.items }) }
        requires modules { length modules.items < 2 ^ 32 }
        requires queues { length queues.items < 2 ^ 32 }
        ensures { IfOk result (λ net. net ≡ record { modules = modules.items; queues = queues.items }) }
    {
        let ends = ends_of(alloc, modules.len(), &queues)?;
        Ok(Network {
            modules,
            queues,
            ends,
        })
    }

    /// The modules in firing order.
    pub fn modules(&self) -> &[Module]
        ensures value { result.now ≡ self.now.modules }
        ensures network { IsNetwork self.now }
        ensures small { length self.now.modules < 2 ^ 32 }
    {
        &self.modules
    }

    /// The queues in queue order.
    pub fn queues(&self) -> &[Queue]
        ensures value { result.now ≡ self.now.queues }
        ensures network { IsNetwork self.now }
        ensures small { length self.now.queues < 2 ^ 32 }
    {
        &self.queues
    }

    /// The numbers of the queues to a module, in the order of their ports.
    pub fn entrances(&self, module: u32) -> &[u32]
        requires { «module» < length self.now.modules }
        ensures value { result.now ≡ entrances self.now «module» }
        ensures known { All (λ n. n < length self.now.queues) (entrances self.now «module») }
        ensures network { IsNetwork self.now }
        ensures few { length (entrances self.now «module») + length (exits self.now «module») ≤ length self.now.queues }
        ensures small { length self.now.queues < 2 ^ 32 }
    {
        &self.ends[module as usize].entrances
    }

    /// The numbers of the queues from a module, in queue order.
    pub fn exits(&self, module: u32) -> &[u32]
        requires { «module» < length self.now.modules }
        ensures value { result.now ≡ exits self.now «module» }
        ensures known { All (λ n. n < length self.now.queues) (exits self.now «module») }
        ensures few { length (entrances self.now «module») + length (exits self.now «module») ≤ length self.now.queues }
        ensures small { length self.now.queues < 2 ^ 32 }
    {
        &self.ends[module as usize].exits
    }
}

/// The number of a queue, put among others in the order of their ports.
fn put_by_port(queues: &[Queue], ports: &mut Vec<u32>, queue: u32) -> Result<(), NoMemory>
    requires known { queue < length queues.now }
    requires others { All (λ n. n < length queues.now) ports.old.items }
    ensures { IfOk result (λ _. ports.new.items ≡ put_by_port queues.now queue ports.old.items) }
{
    let port = queues[queue as usize].port;
    let mut place = 0;
    while place < ports.len() && queues[ports[place] as usize].port < port {
        place += 1;
    }
    ports.insert(place, queue)?;
    Ok(())
}

/// As many modules without queues.
fn no_ends(alloc: Global, modules: usize) -> Result<Vec<Ends>, NoMemory>
    ensures { IfOk result (λ ends. (length ends.items ≡ modules)
        × All (λ e. (e.entrances.items ≡ []) × (e.exits.items ≡ [])) ends.items) }
{
    let mut ends = Vec::new(alloc);
    for _module in 0..modules {
        let none = Ends {
            entrances: Vec::new(alloc),
            exits: Vec::new(alloc),
        };
        ends.push(none)?;
    }
    Ok(ends)
}

/// One queue more at its two ends.
fn list_queue(queues: &[Queue], ends: &mut Vec<Ends>, number: u32) -> Result<(), NoMemory>
    requires known { number < length queues.now }
    requires from { (queue_at queues.now number).from < length ends.old.items }
    requires to { (queue_at queues.now number).to < length ends.old.items }
    requires listed { IsListed queues.now (length ends.old.items) number ends.old.items }
    ensures { IfOk result (λ _. IsListed queues.now (length ends.old.items) (number + 1) ends.new.items) }
{
    let queue = queues[number as usize];
    let to = &mut ends[queue.to as usize];
    put_by_port(queues, &mut to.entrances, number)?;
    let from = &mut ends[queue.from as usize];
    from.exits.push(number)?;
    Ok(())
}

/// The queues at each module.
fn ends_of(alloc: Global, modules: usize, queues: &[Queue]) -> Result<Vec<Ends>, NoMemory>
    requires small { length queues.now < 2 ^ 32 }
    requires from { (n : ℕ) → n < length queues.now → (queue_at queues.now n).from < modules }
    requires to { (n : ℕ) → n < length queues.now → (queue_at queues.now n).to < modules }
    ensures { IfOk result (λ ends. IsListed queues.now modules (length queues.now) ends.items) }
{
    let mut ends = no_ends(alloc, modules)?;
    for number in 0..queues.len() as u32 {
        list_queue(queues, &mut ends, number)?;
    }
    Ok(ends)
}
