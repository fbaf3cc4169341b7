ghost use Rattle.std.specs.Prelude.{◌≡◌, ◌++◌, ◌∷◌, [], length, OnOk};
ghost use Rattle.delay_net.specs.Windows.{HasShortDelays, IsAssignment, MeetsWindows};
ghost use Rattle.soda_ir.specs.Program.{plain};
ghost use Rattle.soda_print.specs.Canonical.{ended};
ghost use Rattle.time_stages.specs.Staged.{staged, staged_reads, staged_widths};
ghost use Rattle.design_lines.specs.PlanLines.{plan_lines, read_lines, tensor_lines};

use crate::NoMemory;
use crate::text::{add_read, add_tensor, add_total};
use delay_net::{Flow, Net, age_of, storage, storages};
use soda_ir::Program;
use std::alloc::Global;
use time_stages::Staged;

// Adds the lines of the staged tensors.
fn add_tensors(
    alloc: Global,
    text: &mut Vec<u8>,
    program: &Program,
    staging: &Staged,
    net: &Net,
    delays: &[u64],
) -> Result<(), NoMemory>
    requires staging { staging.now ≡ staged (plain program.now) }
    requires weights { net.now.weights ≡ staged_widths (plain program.now) }
    requires reads { net.now.reads ≡ staged_reads (plain program.now) }
    requires assignment { IsAssignment net.now.weights delays.now }
    requires short { HasShortDelays delays.now }
    requires meets { MeetsWindows net.now.reads delays.now }
    ensures { OnOk result (text.new.items ≡ text.old.items ++ ended (tensor_lines (plain program.now) delays.now)) }
{
    let parts = program.parts();
    let storages = storages(net, delays);
    let tensors = staging.tensors.as_slice();
    for (number, tensor) in tensors.iter().enumerate() {
        add_tensor(
            alloc,
            text,
            parts,
            number,
            tensor,
            delays[number],
            storages[number],
        )?;
    }
    Ok(())
}

// Adds the lines of their reads.
fn add_reads(
    alloc: Global,
    text: &mut Vec<u8>,
    program: &Program,
    net: &Net,
    delays: &[u64],
    flow: &Flow,
) -> Result<(), NoMemory>
    requires reads { net.now.reads ≡ staged_reads (plain program.now) }
    requires assignment { IsAssignment net.now.weights delays.now }
    requires short { HasShortDelays delays.now }
    requires meets { MeetsWindows net.now.reads delays.now }
    requires holds { length flow.now.hold ≡ length net.now.reads }
    requires needs { length flow.now.need ≡ length net.now.reads }
    ensures { OnOk result (text.new.items ≡ text.old.items
        ++ ended (read_lines (plain program.now) delays.now flow.now.hold flow.now.need)) }
{
    let hold = flow.hold.as_slice();
    let need = flow.need.as_slice();
    let reads = net.reads();
    for (number, read) in reads.iter().enumerate() {
        let age = age_of(*read, delays);
        add_read(alloc, text, number, *read, age, hold[number], need[number])?;
    }
    Ok(())
}

/// Adds the lines of a plan to a text: a line for each staged tensor of the program, with its delay and its storage in
/// cells, a line for each of their reads, with its age in cells and its hold and need in bits, and the total storage in
/// bits. The staging and the net are the program's; the assignment has one delay for each staged tensor, below 2^62,
/// and meets the windows; the certificate has one hold and one need for each read. The only error is that memory ran
/// out.
pub fn add_plan_lines(
    alloc: Global,
    text: &mut Vec<u8>,
    program: &Program,
    staging: &Staged,
    net: &Net,
    delays: &[u64],
    flow: &Flow,
) -> Result<(), NoMemory>
    requires staging { staging.now ≡ staged (plain program.now) }
    requires weights { net.now.weights ≡ staged_widths (plain program.now) }
    requires reads { net.now.reads ≡ staged_reads (plain program.now) }
    requires assignment { IsAssignment net.now.weights delays.now }
    requires short { HasShortDelays delays.now }
    requires meets { MeetsWindows net.now.reads delays.now }
    requires holds { length flow.now.hold ≡ length net.now.reads }
    requires needs { length flow.now.need ≡ length net.now.reads }
    ensures { OnOk result (text.new.items ≡ text.old.items
        ++ ended (plan_lines (plain program.now) delays.now flow.now.hold flow.now.need)) }
{
    add_tensors(alloc, text, program, staging, net, delays)?;
    add_reads(alloc, text, program, net, delays, flow)?;
    add_total(alloc, text, storage(net, delays))
}
