ghost use Rattle.std.specs.Prelude.{◌≡◌, ◌<◌, ◌^◌, IfOk, length, map, slice_index, slice_index_or};
ghost use Rattle.delay_net.specs.Windows.{HasShortDelays};
ghost use Rattle.soda_words.specs.IntType.{int32};
ghost use Rattle.soda_ir.specs.Program.{plain};
ghost use Rattle.time_stages.specs.Staged.{staged, type_of};
ghost use Rattle.staged_cells.specs.Cells.{type_at};
ghost use Rattle.staged_cells.specs.Sends.{output_of};
ghost use Rattle.staged_cells.specs.Streams.{lane_of, receiver};
ghost use Rattle.cycle_sim.specs.Sends.{exit_lanes};

use net_ir::{Module, Network};
use soda_ir::{Parts, Program};
use soda_words::Ty;
use staged_cells::output_number;
use std::alloc::{AllocError as NoMemory, Global};
use time_stages::Staged;

// The lane of a module, and 0 of a source and of a sink.
fn lane_of(module: Module) -> u32
    ensures { result ≡ lane_of «module» }
{
    match module {
        Module::Source { .. } | Module::Sink { .. } => 0,
        Module::Forward { lane, .. } | Module::Compute { lane, .. } => lane,
    }
}

// The lane of the module that a queue leads to.
fn lane_at(network: &Network, queue: u32) -> u32
    ensures { result ≡ lane_of (receiver network.now queue) }
{
    let to = match network.queues().get(queue as usize) {
        Some(queue) => queue.to,
        None => 0,
    };
    match network.modules().get(to as usize) {
        Some(module) => lane_of(*module),
        None => 0,
    }
}

/// The lanes of the modules that the queues from a module lead to, in queue order.
pub(crate) fn lanes_from(
    alloc: Global,
    network: &Network,
    module: u32,
) -> Result<Vec<u32>, NoMemory>
    requires { «module» < length network.now.modules }
    ensures { IfOk result (λ lanes. lanes.items ≡ exit_lanes network.now «module») }
{
    let exits = network.exits(module);
    let mut lanes = Vec::with_capacity(alloc, exits.len())?;
    for queue in exits {
        lanes.push(lane_at(network, *queue))?;
    }
    Ok(lanes)
}

// The type of a tensor, and int32 past the last.
fn tensor_type(parts: &Parts, tensor: u32) -> Ty
    ensures { result ≡ type_of (plain parts.now) tensor }
{
    match parts.tensors.get(tensor as usize) {
        Some(tensor) => tensor.ty,
        None => int_types::int32(),
    }
}

/// The type of a staged tensor, and int32 past the last.
pub(crate) fn stage_type(program: &Program, staging: &Staged, number: u32) -> Ty
    requires { staging.now ≡ staged (plain program.now) }
    ensures { result ≡ type_at (plain program.now) number }
{
    match staging.tensors.get(number as usize) {
        Some(stage) => tensor_type(program.parts(), stage.tensor),
        None => int_types::int32(),
    }
}

/// The delay of a staged tensor, and 0 past the last.
pub(crate) fn delay_of(delays: &[u64], number: u32) -> u64
    ensures value { result ≡ slice_index delays.now number }
    ensures short { HasShortDelays delays.now → result < 2 ^ 62 }
{
    match delays.get(number as usize) {
        Some(delay) => *delay,
        None => 0,
    }
}

/// The number of the output that a sink of a staged tensor takes, and 0 past the last.
pub(crate) fn output_at(program: &Program, staging: &Staged, number: u32) -> u32
    requires { staging.now ≡ staged (plain program.now) }
    ensures { result ≡ output_of (plain program.now) number }
{
    match staging.tensors.get(number as usize) {
        Some(stage) => output_number(program.parts(), stage.tensor),
        None => 0,
    }
}
