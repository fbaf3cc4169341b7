ghost use Rattle.std.specs.Prelude.{◌≡◌, ◌<◌, ◌≤◌, ◌^◌, ◌*◌, ◌+◌, [], ℕ, ℤ, length, map, sum, IfOk, IfSome, IsTrue};
ghost use Rattle.net_ir.specs.Nets.{queue_at, IsNetwork};
ghost use Rattle.net_ir.specs.States.{zeros};
ghost use Rattle.net_cycles.specs.Between.{between};
ghost use Rattle.net_cycles.specs.Cycles.{HasRun};
ghost use Rattle.net_cycles.specs.Streams.{HoldStreams};
ghost use Rattle.cycle_rows.specs.Soundness.{OwnPort, IsSound};

use net_cycles::Pipeline;
use net_ir::{Module, Network, NoMemory, Queue};
use std::alloc::Global;

/// Whether no queue before a queue has its port of its module.
fn has_own_port(queues: &[Queue], number: usize) -> bool
    requires { number < length queues.now }
    ensures { IsTrue result → OwnPort queues.now number number }
{
    let port = queues[number].port;
    let to = queues[number].to;
    for other in 0..number {
        if queues[other].to == to && queues[other].port == port {
            return false;
        }
    }
    true
}

/// Whether the queues are those of a network of so many modules, and not too large.
fn is_sound(modules: usize, queues: &[Queue]) -> bool
    ensures { IsTrue result → IsSound modules queues.now (length queues.now) }
{
    let mut total: u64 = 0;
    for number in 0..queues.len() {
        let queue = queues[number];
        if queue.from as usize >= modules
            || queue.to as usize >= modules
            || queue.from == queue.to
        {
            return false;
        }
        if queue.capacity == 0 || queue.capacity >= 1 << 32 || total >= 1 << 40 {
            return false;
        }
        if !has_own_port(queues, number) {
            return false;
        }
        total += queue.capacity;
    }
    true
}

/// A pipeline of these modules and queues, in which nothing has fired; None where they aren't those of a network, or
/// are too large.
pub fn pipeline_if_sound(
    alloc: Global,
    modules: Vec<Module>,
    queues: Vec<Queue>,
    firings: u64,
) -> Result<Option<Pipeline>, NoMemory>
    ensures network { IfOk result (λ found. IfSome found (λ p.
        p.network ≡ record { modules = modules.items; queues = queues.items })) }
    ensures firings { IfOk result (λ found. IfSome found (λ p. p.firings ≡ firings)) }
    ensures run { IfOk result (λ found. IfSome found (λ p. HasRun p.network firings [] p.fired)) }
    ensures zeros { IfOk result (λ found. IfSome found (λ p. between p.fired ≡ zeros p.network)) }
    ensures streams { IfOk result (λ found. IfSome found (λ p. (stream : ℕ → ℕ → ℤ)
        → HoldStreams p.network p.fired p.fifos stream)) }
{
    if modules.len() >= 1 << 32 || queues.len() >= 1 << 32 || !is_sound(modules.len(), &queues) {
        drop(modules);
        drop(queues);
        return Ok(None);
    }
    let network = Network::new(alloc, modules, queues)?;
    let pipeline = Pipeline::new(alloc, network, firings)?;
    Ok(Some(pipeline))
}
