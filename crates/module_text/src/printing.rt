ghost use Rattle.std.specs.Prelude.{◌≡◌, ◌++◌, [], IfOk, OnOk};
ghost use Rattle.module_text.specs.Designs.{plain_design};
ghost use Rattle.soda_ir.specs.Program.{plain};
ghost use Rattle.soda_print.specs.Canonical.{ended};
ghost use Rattle.time_stages.specs.Staged.{staged_reads, staged_widths};
ghost use Rattle.design_lines.specs.Lines.{IsWritten, network_lines};
ghost use Rattle.module_text.specs.Texts.{IsDesignText, design_text, lines_to_total, version_1};

use crate::{Design, NoMemory};
use delay_net::Net;
use design_lines::{add_line, add_modules, add_plan_lines, add_program, add_queues};
use net_ir::Network;
use std::alloc::Global;
use time_stages::net_of;

// Adds the lines of a network, and the last.
fn add_network(alloc: Global, text: &mut Vec<u8>, network: &Network) -> Result<(), NoMemory>
    ensures { OnOk result (text.new.items ≡ text.old.items ++ ended (network_lines network.now)) }
{
    add_modules(alloc, text, network.modules())?;
    add_queues(alloc, text, network.queues())?;
    add_line(text, b"end")
}

// The lines up to the total, by the net of the staging.
fn add_to_total(
    alloc: Global,
    text: &mut Vec<u8>,
    design: &Design,
    net: &Net,
) -> Result<(), NoMemory>
    requires weights { net.now.weights ≡ staged_widths (plain design.now.program) }
    requires reads { net.now.reads ≡ staged_reads (plain design.now.program) }
    requires empty { text.old.items ≡ [] }
    ensures adds { OnOk result (text.new.items ≡ ended (lines_to_total version_1 (plain_design design.now))) }
    ensures written { OnOk result (IsWritten (plain design.now.program)) }
{
    let program = design.program();
    add_line(text, b"soda 1")?;
    add_program(alloc, text, program)?;
    add_plan_lines(
        alloc,
        text,
        program,
        design.staged(),
        net,
        design.delays(),
        design.flow(),
    )
}

// The text of a design, by the net of the staging.
fn text_of(alloc: Global, design: &Design, net: &Net) -> Result<Vec<u8>, NoMemory>
    requires weights { net.now.weights ≡ staged_widths (plain design.now.program) }
    requires reads { net.now.reads ≡ staged_reads (plain design.now.program) }
    ensures text { IfOk result (λ text. text.items ≡ design_text version_1 (plain_design design.now)) }
    ensures written { IfOk result (λ _. IsWritten (plain design.now.program)) }
{
    let mut text = Vec::new(alloc);
    add_to_total(alloc, &mut text, design, net)?;
    add_network(alloc, &mut text, design.network())?;
    Ok(text)
}

/// The text of a design: the line `soda 1`, the number of lines of its program and these lines, its staged tensors with
/// delays and storages, their reads with ages, holds and needs, the total storage, the modules and the queues of its
/// network, and the line `end`. Each line is ended by a line feed. The only error is that memory ran out.
pub fn print_design(alloc: Global, design: &Design) -> Result<Vec<u8>, NoMemory>
    ensures text { IfOk result (λ text. text.items ≡ design_text version_1 (plain_design design.now)) }
    ensures is { IfOk result (λ text. IsDesignText version_1 text.items (plain_design design.now)) }
{
    let net = net_of(alloc, design.program(), design.staged())?;
    let text = text_of(alloc, design, &net);
    drop(net);
    text
}
