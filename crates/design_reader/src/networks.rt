ghost use Rattle.std.specs.Prelude.{◌≡◌, ◌<◌, ◌^◌, ◌++◌, codes, IfOk, length};
ghost use Rattle.design_lines.specs.PlanLines.{numbered};
ghost use Rattle.soda_print.specs.Canonical.{ended};
ghost use Rattle.design_lines.specs.Lines.{module_line, network_lines, queue_line};
ghost use Rattle.design_reader.specs.Stops.{IfRefused, IsStop};

use crate::{NoMemory, TextFail};
use design_lines::{add_module, add_queue, behind, behind_line};
use net_ir::{Module, Network, Queue};
use std::alloc::Global;

// The line of a module, with its line feed.
fn module_text(alloc: Global, number: usize, module: Module) -> Result<Vec<u8>, NoMemory>
    ensures { IfOk result (λ line. line.items ≡ module_line number «module» ++ codes "\n") }
{
    let mut line = Vec::new(alloc);
    add_module(alloc, &mut line, number, module)?;
    Ok(line)
}

// What follows the lines of modules. They stand behind so many lines.
fn modules_behind<'a>(
    alloc: Global,
    text: &'a [u8],
    modules: &[Module],
    before: u64,
) -> Result<&'a [u8], TextFail>
    requires before { before < 2 ^ 40 }
    requires few { length modules.now < 2 ^ 32 }
    ensures text { IfOk result (λ rest. text.now ≡ ended (numbered module_line 0 modules.now) ++ rest.now) }
    ensures refused { IfRefused result (IsStop (numbered module_line 0 modules.now) text.now before) }
{
    let mut rest = text;
    for (number, module) in modules.iter().enumerate() {
        let line = module_text(alloc, number, *module)?;
        let Some(after) = behind(&line, rest) else {
            return Err(TextFail::Refused(before + number as u64 + 1));
        };
        rest = after;
    }
    Ok(rest)
}

// The line of a queue, with its line feed.
fn queue_text(alloc: Global, number: usize, queue: Queue) -> Result<Vec<u8>, NoMemory>
    ensures { IfOk result (λ line. line.items ≡ queue_line number queue ++ codes "\n") }
{
    let mut line = Vec::new(alloc);
    add_queue(alloc, &mut line, number, queue)?;
    Ok(line)
}

// What follows the lines of queues. They stand behind so many lines.
fn queues_behind<'a>(
    alloc: Global,
    text: &'a [u8],
    queues: &[Queue],
    before: u64,
) -> Result<&'a [u8], TextFail>
    requires before { before < 2 ^ 41 }
    requires few { length queues.now < 2 ^ 32 }
    ensures text { IfOk result (λ rest. text.now ≡ ended (numbered queue_line 0 queues.now) ++ rest.now) }
    ensures refused { IfRefused result (IsStop (numbered queue_line 0 queues.now) text.now before) }
{
    let mut rest = text;
    for (number, queue) in queues.iter().enumerate() {
        let line = queue_text(alloc, number, *queue)?;
        let Some(after) = behind(&line, rest) else {
            return Err(TextFail::Refused(before + number as u64 + 1));
        };
        rest = after;
    }
    Ok(rest)
}

/// What follows the lines of a network, and the last. They stand behind so many lines.
pub(crate) fn network_behind<'a>(
    alloc: Global,
    text: &'a [u8],
    network: &Network,
    before: u64,
) -> Result<&'a [u8], TextFail>
    requires before { before < 2 ^ 40 }
    ensures text { IfOk result (λ rest. text.now ≡ ended (network_lines network.now) ++ rest.now) }
    ensures refused { IfRefused result (IsStop (network_lines network.now) text.now before) }
{
    let modules = network.modules();
    let queues = network.queues();
    let behind_modules = modules_behind(alloc, text, modules, before)?;
    let behind_queues = queues_behind(
        alloc,
        behind_modules,
        queues,
        before + modules.len() as u64,
    )?;
    match behind_line(b"end", behind_queues) {
        Some(rest) => Ok(rest),
        None => Err(TextFail::Refused(before + modules.len() as u64 + queues.len() as u64 + 1)),
    }
}
