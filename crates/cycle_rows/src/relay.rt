ghost use Rattle.std.specs.Prelude.{◌≡◌, ◌≤◌, [], ℕ, slice_index_or, pos, fold, EachIndex, IfNone, IfSome, IsTrue};
ghost use Rattle.std.specs.Int.{int_wrapping_add};
ghost use Rattle.std.proofs.Common.{rules};
ghost use mir.Syntax.{w128};
ghost use Rattle.net_ir.specs.States.{zeros};
ghost use Rattle.net_cycles.specs.Between.{between};
ghost use Rattle.cycle_rows.specs.Relayed.{module_at, AgreesWith, IsReady, IsSource, IsSink, Rose, Stops, stops_since};

use net_cycles::{Datapath, Pipeline};
use net_ir::{Module, Network};
use std::alloc::Global;

/// Why a firing was stopped.
#[derive(Clone, Copy)]
pub enum Stopped {
    /// The next cell isn't there.
    NoCell,
    /// There was no memory left.
    NoMemory,
}

/// Where cells come from. Nothing is promised of what comes.
pub trait Cells {
    /// The count of faults.
    ghost faults: { Self → ℕ };

    /// The next cell. Where it isn't there, the count of faults rises, or it stands at 2^64 - 1.
    fn next_cell(&mut self) -> Option<i128>
        ensures later { faults self.old ≤ faults self.new }
        ensures failed { IfNone result (Rose (faults self.old) (faults self.new)) };
}

/// A network with one source and one sink. The source sends each cell that it reads into each of its queues; a
/// forwarding module sends what it took at its first port, a computing module the sum of what it took, by the rule of
/// 128 bits; the sink hands on what it took at its first port. Any other source sends 0, and any other sink does
/// nothing.
#[derive(Drop)]
pub struct Relay {
    /// The number of the source.
    pub source: u32,
    /// The number of the sink.
    pub sink: u32,
    /// The cells that were read.
    pub read: Vec<i128>,
    /// The cells that were handed on.
    pub given: Vec<i128>,
}

impl<E: Cells> Datapath<E> for Relay {
    type Fault = Stopped;

    ghost agrees = { λ d env net stream. AgreesWith net d.source d.read.items stream };

    ghost ready = { λ d env net fired. IsReady net d.source d.sink d.read.items d.given.items fired };

    ghost relies = { λ d net fired m. Unit {0} };

    ghost onward = { λ a x b y. E.faults x ≤ E.faults y };

    ghost stopped = { λ a x b y net fired m fault. Stops (E.faults x) (E.faults y) fault };

    ghost stays = { λ d x. Prim.search rules };

    ghost follows = { λ a b c x y z one two. Prim.search rules };

    ghost since = { λ a b c x y z net fired m fault one two.
        stops_since (E.faults x) (E.faults y) (E.faults z) fault one two };

    fn fire(
        &mut self,
        env: &mut E,
        net: &Network,
        module: u32,
        _fired: &[u64],
        ports: &[i128],
        sends: &mut [i128],
    ) -> Result<(), Stopped> {
        match net.modules()[module as usize] {
            Module::Source { .. } => {
                if module != self.source {
                    send_same(0, sends);
                    return Ok(());
                }
                let Some(cell) = env.next_cell() else {
                    return Err(Stopped::NoCell);
                };
                match self.read.push(cell) {
                    Ok(()) => {}
                    Err(_) => return Err(Stopped::NoMemory),
                }
                send_same(cell, sends);
                Ok(())
            }
            Module::Forward { .. } => {
                send_same(first(ports), sends);
                Ok(())
            }
            Module::Compute { .. } => {
                send_same(sum(ports), sends);
                Ok(())
            }
            Module::Sink { .. } => {
                send_same(0, sends);
                if module != self.sink {
                    return Ok(());
                }
                match self.given.push(first(ports)) {
                    Ok(()) => Ok(()),
                    Err(_) => Err(Stopped::NoMemory),
                }
            }
        }
    }
}

/// A relay with this source and this sink of a network in which nothing has fired; None where they aren't a source and
/// a sink.
pub fn relay_if_one(alloc: Global, pipeline: &Pipeline, source: u32, sink: u32) -> Option<Relay>
    requires { between pipeline.now.fired ≡ zeros pipeline.now.network }
    ensures ready { IfSome result (λ r. IsReady pipeline.now.network r.source r.sink r.read.items r.given.items
        pipeline.now.fired) }
    ensures given { IfSome result (λ r. r.given.items ≡ []) }
{
    let net = pipeline.network();
    if !is_source(net, source) || !is_sink(net, sink) {
        return None;
    }
    Some(Relay {
        source,
        sink,
        read: Vec::new(alloc),
        given: Vec::new(alloc),
    })
}

/// Whether the module of a number is a source.
fn is_source(net: &Network, module: u32) -> bool
    ensures { IsTrue result → IsSource (module_at net.now «module») }
{
    if module as usize >= net.modules().len() {
        return false;
    }
    match net.modules()[module as usize] {
        Module::Source { .. } => true,
        Module::Forward { .. } | Module::Compute { .. } | Module::Sink { .. } => false,
    }
}

/// Whether the module of a number is a sink.
fn is_sink(net: &Network, module: u32) -> bool
    ensures { IsTrue result → IsSink (module_at net.now «module») }
{
    if module as usize >= net.modules().len() {
        return false;
    }
    match net.modules()[module as usize] {
        Module::Source { .. } | Module::Forward { .. } | Module::Compute { .. } => false,
        Module::Sink { .. } => true,
    }
}

/// The value at the first port, or 0 where there is none.
fn first(ports: &[i128]) -> i128
    ensures { result ≡ slice_index_or ports.now 0 (pos 0) }
{
    match ports.first() {
        Some(value) => *value,
        None => 0,
    }
}

/// The same value for each queue.
fn send_same(sent: i128, sends: &mut [i128])
    ensures { EachIndex sends.new (λ j. slice_index_or sends.new j (pos 0) ≡ sent) }
{
    for value in sends.iter_mut() {
        *value = sent;
    }
}

/// The sum of the values at the ports.
fn sum(ports: &[i128]) -> i128
    ensures { result ≡ fold (int_wrapping_add w128) (pos 0) ports.now }
{
    let mut total: i128 = 0;
    for value in ports {
        total = total.wrapping_add(*value);
    }
    total
}
