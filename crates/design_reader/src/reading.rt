ghost use Rattle.std.specs.Prelude.{◌≡◌, ◌<◌, ◌≤◌, ◌+◌, ◌^◌, length, IfOk, OnOk};
ghost use Rattle.design_lines.specs.Lines.{network_lines};
ghost use Rattle.design_reader.specs.Limits.{most_design_text};
ghost use Rattle.design_reader.specs.Refused.{HasTensors, IsRefusedBehind, IsRefusedLine, lines_before};
ghost use Rattle.design_reader.specs.Stops.{IfRefused};
ghost use Rattle.design_reader.specs.machine.Pieces.{IsDesignBehind, IsEndStop, IsPlanTold, IsRefusedFirst, IsTextBehind};
ghost use Rattle.module_text.specs.Designs.{IsDesign, plain_design};
ghost use Rattle.module_text.specs.Texts.{IsDesignText, lines_behind, version_1};
ghost use Rattle.soda_ir.specs.Program.{plain};
ghost use Rattle.soda_print.specs.Canonical.{ended};
ghost use Rattle.time_stages.specs.Staged.{staged_reads, staged_tensors, staged_widths};

use crate::TextFail;
use crate::limits::MOST_DESIGN_TEXT;
use crate::networks::network_behind;
use crate::plans::{Reads, Tensors, reads_told, tensors_told};
use crate::programs::{canonical_program, program_cut};
use crate::totals::total_told;
use delay_net::{Amounts, Flow, Net};
use design_lines::behind_line;
use module_text::{BuildRefusal, Design, design};
use net_ir::Network;
use soda_ir::{Parts, Program};
use std::alloc::Global;
use time_stages::{StagedTensor, net_of, stage};

// What the lines of a plan tell, and the text behind them.
#[derive(Drop)]
struct Plan<'a> {
    // The delay of each staged tensor, in cells.
    delays: Vec<u64>,
    // The certificate.
    flow: Flow,
    // How many lines the text has up to the total.
    lines: u64,
    // What follows.
    rest: &'a [u8],
}

// What the lines of the reads and of the total tell, behind those of the tensors.
fn plan_behind<'a>(
    alloc: Global,
    text: &[u8],
    parts: &Parts,
    net: &Net,
    tensors: Tensors<'a>,
    before: u64,
) -> Result<Plan<'a>, TextFail>
    requires weights { net.now.weights ≡ staged_widths (plain parts.now) }
    requires reads { net.now.reads ≡ staged_reads (plain parts.now) }
    requires tensors { HasTensors (plain parts.now) text.now tensors.delays.items tensors.storages.items
        tensors.rest.now }
    requires before { before ≡ lines_before (plain parts.now) + length tensors.delays.items }
    requires few { before < 2 ^ 39 }
    ensures told { IfOk result (λ plan. IsPlanTold (plain parts.now) text.now plan.delays.items plan.flow.hold
        plan.flow.need plan.rest.now plan.lines) }
    ensures few { IfOk result (λ plan. plan.lines < 2 ^ 40) }
    ensures refused { IfRefused result (IsRefusedBehind version_1 (plain parts.now) text.now) }
{
    let _ = text;
    let _ = parts;
    let Tensors {
        delays,
        storages,
        rest,
    } = tensors;
    let Reads { hold, need, rest } = reads_told(alloc, rest, net, &delays, before)?;
    let flow = Flow {
        hold: Amounts::from_vec(hold),
        need: Amounts::from_vec(need),
    };
    let lines = before + net.reads().len() as u64 + 1;
    match total_told(alloc, rest, net, &delays, &storages, &flow)? {
        Some(rest) => Ok(Plan {
            delays,
            flow,
            lines,
            rest,
        }),
        None => Err(TextFail::Refused(lines)),
    }
}

// What the lines of the plan of a program tell, by its staging and its net. They stand behind so many lines.
fn plan_by_net<'a>(
    alloc: Global,
    text: &'a [u8],
    parts: &Parts,
    tensors: &[StagedTensor],
    net: &Net,
    before: u64,
) -> Result<Plan<'a>, TextFail>
    requires tensors { tensors.now ≡ staged_tensors (plain parts.now) }
    requires weights { net.now.weights ≡ staged_widths (plain parts.now) }
    requires reads { net.now.reads ≡ staged_reads (plain parts.now) }
    requires before { before ≡ lines_before (plain parts.now) }
    requires few { before < 2 ^ 38 }
    ensures told { IfOk result (λ plan. IsPlanTold (plain parts.now) text.now plan.delays.items plan.flow.hold
        plan.flow.need plan.rest.now plan.lines) }
    ensures few { IfOk result (λ plan. plan.lines < 2 ^ 40) }
    ensures refused { IfRefused result (IsRefusedBehind version_1 (plain parts.now) text.now) }
{
    let _net = net.reads();
    let told = tensors_told(alloc, text, parts, tensors, before)?;
    plan_behind(alloc, text, parts, net, told, before + tensors.len() as u64)
}

// What the lines of the plan of a program tell. They stand behind so many lines.
fn plan_told<'a>(
    alloc: Global,
    text: &'a [u8],
    program: &Program,
    before: u64,
) -> Result<Plan<'a>, TextFail>
    requires before { before ≡ lines_before (plain program.now) }
    requires few { before < 2 ^ 38 }
    ensures told { IfOk result (λ plan. IsPlanTold (plain program.now) text.now plan.delays.items plan.flow.hold
        plan.flow.need plan.rest.now plan.lines) }
    ensures few { IfOk result (λ plan. plan.lines < 2 ^ 40) }
    ensures refused { IfRefused result (IsRefusedBehind version_1 (plain program.now) text.now) }
{
    let staging = stage(alloc, program)?;
    let net = net_of(alloc, program, &staging)?;
    let plan = plan_by_net(
        alloc,
        text,
        program.parts(),
        staging.tensors.as_slice(),
        &net,
        before,
    );
    drop(net);
    drop(staging);
    plan
}

// Whether a text is the lines of a network, and the last. They stand behind so many lines.
fn network_told(alloc: Global, text: &[u8], network: &Network, before: u64) -> Result<(), TextFail>
    requires before { before < 2 ^ 40 }
    ensures text { OnOk result (text.now ≡ ended (network_lines network.now)) }
    ensures refused { IfRefused result (IsEndStop (network_lines network.now) text.now before) }
{
    let rest = network_behind(alloc, text, network, before)?;
    if rest.is_empty() {
        Ok(())
    } else {
        let lines = network.modules().len() as u64 + network.queues().len() as u64 + 1;
        Err(TextFail::Refused(before + lines + 1))
    }
}

// The design, if a text is the lines of its network. They stand behind so many lines.
fn if_network(alloc: Global, text: &[u8], design: Design, before: u64) -> Result<Design, TextFail>
    requires before { before < 2 ^ 40 }
    ensures same { IfOk result (λ d. d ≡ design) }
    ensures text { OnOk result (text.now ≡ ended (lines_behind version_1 (plain_design design))) }
    ensures refused { IfRefused result (IsEndStop (lines_behind version_1 (plain_design design)) text.now before) }
{
    match network_told(alloc, text, design.network(), before) {
        Ok(()) => Ok(design),
        Err(fail) => {
            drop(design);
            Err(fail)
        }
    }
}

// The design of a plan, if a text is the lines of its network.
fn design_told(
    alloc: Global,
    text: &[u8],
    program: Program,
    plan: Plan<'_>,
) -> Result<Design, TextFail>
    requires plan { IsPlanTold (plain program) text.now plan.delays.items plan.flow.hold plan.flow.need
        plan.rest.now plan.lines }
    requires few { plan.lines < 2 ^ 40 }
    ensures program { IfOk result (λ d. d.program ≡ program) }
    ensures text { IfOk result (λ d. IsDesignBehind text.now (plain_design d)) }
    ensures refused { IfRefused result (IsRefusedBehind version_1 (plain program) text.now) }
{
    let _ = text;
    let Plan {
        delays,
        flow,
        lines,
        rest,
    } = plan;
    match design(alloc, program, delays, flow) {
        Ok(design) => if_network(alloc, rest, design, lines),
        Err(BuildRefusal::Limit(..)) => Err(TextFail::Refused(lines)),
        Err(BuildRefusal::Memory) => Err(TextFail::Memory),
    }
}

// The design of a program whose lines stand before a text. They are so many, with the first line.
fn behind_program(
    alloc: Global,
    text: &[u8],
    program: Program,
    before: u64,
) -> Result<Design, TextFail>
    requires before { before ≡ lines_before (plain program) }
    requires few { before < 2 ^ 38 }
    ensures program { IfOk result (λ d. d.program ≡ program) }
    ensures text { IfOk result (λ d. IsDesignBehind text.now (plain_design d)) }
    ensures refused { IfRefused result (IsRefusedBehind version_1 (plain program) text.now) }
{
    match plan_told(alloc, text, &program, before) {
        Ok(plan) => design_told(alloc, text, program, plan),
        Err(fail) => {
            drop(program);
            Err(fail)
        }
    }
}

// The design that a text is of behind the first line.
fn behind_first(alloc: Global, text: &[u8]) -> Result<Design, TextFail>
    ensures text { IfOk result (λ d. IsTextBehind text.now (plain_design d)) }
    ensures refused { IfRefused result (IsRefusedFirst text.now) }
{
    let Some(cut) = program_cut(text) else {
        return Err(TextFail::Refused(2));
    };
    let program = canonical_program(alloc, cut.program, cut.lines)?;
    behind_program(alloc, cut.rest, program, cut.lines + 2)
}

/// The design that the bytes are the text of. Else the refused line: the first that breaks its rule, counted from 1; it
/// is 0 where there are more than `MOST_DESIGN_TEXT` bytes. Line 1 is `soda 1`. Line 2 has the number of lines of the
/// program, and is refused too where these are not the canonical text of a program. A line that is missing or has no
/// line feed breaks its rule at its own number, and what follows the last at the next one.
pub fn read_design(alloc: Global, bytes: &[u8]) -> Result<Design, TextFail>
    ensures text { IfOk result (λ d. IsDesignText version_1 bytes.now (plain_design d)) }
    ensures short { IfOk result (λ d. length bytes.now ≤ most_design_text) }
    ensures refused { IfRefused result (IsRefusedLine version_1 bytes.now) }
{
    if bytes.len() > MOST_DESIGN_TEXT {
        return Err(TextFail::Refused(0));
    }
    match behind_line(b"soda 1", bytes) {
        Some(text) => behind_first(alloc, text),
        None => Err(TextFail::Refused(1)),
    }
}
