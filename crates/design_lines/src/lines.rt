ghost use Rattle.std.specs.Prelude.{◌≡◌, ◌++◌, codes, length, IfOk, OnOk, string_bytes};
ghost use Rattle.std.specs.Fmt.{decimal};
ghost use Rattle.soda_print.specs.Canonical.{canonical, canonical_lines, ended};
ghost use Rattle.design_lines.specs.PlanLines.{numbered};
ghost use Rattle.soda_ir.specs.Program.{plain};
ghost use Rattle.design_lines.specs.Lines.{IsWritten, end_words, module_line, port_words, program_line, program_lines, queue_line};

use crate::NoMemory;
use net_ir::{Module, Queue};
use soda_ir::{Parts, Program};
use soda_print::print;
use std::alloc::Global;

/// Adds a line.
#[tactic(auto, using(crate::proofs::Appended::appended))]
pub fn add_line(text: &mut Vec<u8>, line: &[u8]) -> Result<(), NoMemory>
    ensures { OnOk result (text.new.items ≡ text.old.items ++ (line.now ++ codes "\n")) }
{
    text.extend_from_slice(line)?;
    text.extend_from_slice(b"\n")
}

// The line of a module.
fn module_line(alloc: Global, number: usize, module: Module) -> Result<String, NoMemory>
    ensures { IfOk result (λ line. string_bytes line ≡ module_line number «module») }
{
    match module {
        Module::Source { tensor } => format!(in alloc; "module {number} source {tensor}"),
        Module::Forward { tensor, lane, tap } => {
            format!(in alloc; "module {number} forward {tensor} {lane} {tap}")
        }
        Module::Compute { tensor, lane } => {
            format!(in alloc; "module {number} compute {tensor} {lane}")
        }
        Module::Sink { tensor } => format!(in alloc; "module {number} sink {tensor}"),
    }
}

// The number of a queue, as its line begins.
fn queue_words(alloc: Global, number: usize) -> Result<String, NoMemory>
    ensures { IfOk result (λ text. string_bytes text ≡ codes "queue " ++ decimal number) }
{
    format!(in alloc; "queue {number}")
}

// The ends of a queue.
fn end_words(alloc: Global, queue: Queue) -> Result<String, NoMemory>
    ensures { IfOk result (λ text. string_bytes text ≡ end_words queue) }
{
    let from = queue.from;
    let to = queue.to;
    format!(in alloc; " from {from} to {to}")
}

// Its port, its capacity and its lead.
fn port_words(alloc: Global, queue: Queue) -> Result<String, NoMemory>
    ensures { IfOk result (λ text. string_bytes text ≡ port_words queue) }
{
    let port = queue.port;
    let capacity = queue.capacity;
    let lead = queue.lead;
    format!(in alloc; " port {port} capacity {capacity} lead {lead}")
}

/// Adds the line of the module of this number.
pub fn add_module(
    alloc: Global,
    text: &mut Vec<u8>,
    number: usize,
    module: Module,
) -> Result<(), NoMemory>
    ensures { OnOk result (text.new.items ≡ text.old.items ++ (module_line number «module» ++ codes "\n")) }
{
    let line = module_line(alloc, number, module)?;
    add_line(text, line.as_bytes())
}

/// Adds the line of the queue of this number.
#[tactic(auto, using(crate::proofs::Appended::appended))]
pub fn add_queue(
    alloc: Global,
    text: &mut Vec<u8>,
    number: usize,
    queue: Queue,
) -> Result<(), NoMemory>
    ensures { OnOk result (text.new.items ≡ text.old.items ++ (queue_line number queue ++ codes "\n")) }
{
    let words = queue_words(alloc, number)?;
    text.extend_from_slice(words.as_bytes())?;
    let ends = end_words(alloc, queue)?;
    text.extend_from_slice(ends.as_bytes())?;
    let rest = port_words(alloc, queue)?;
    add_line(text, rest.as_bytes())
}

/// Adds the lines of modules.
pub fn add_modules(alloc: Global, text: &mut Vec<u8>, modules: &[Module]) -> Result<(), NoMemory>
    ensures { OnOk result (text.new.items ≡ text.old.items ++ ended (numbered module_line 0 modules.now)) }
{
    for (number, module) in modules.iter().enumerate() {
        add_module(alloc, text, number, *module)?;
    }
    Ok(())
}

/// Adds the lines of queues.
pub fn add_queues(alloc: Global, text: &mut Vec<u8>, queues: &[Queue]) -> Result<(), NoMemory>
    ensures { OnOk result (text.new.items ≡ text.old.items ++ ended (numbered queue_line 0 queues.now)) }
{
    for (number, queue) in queues.iter().enumerate() {
        add_queue(alloc, text, number, *queue)?;
    }
    Ok(())
}

/// How many lines the canonical text of a program has.
pub fn line_count(parts: &Parts) -> u128
    ensures { result ≡ length (canonical_lines (plain parts.now)) }
{
    5 + parts.params.len() as u128 + parts.tensors.len() as u128
}

// The line with this number.
fn count_line(alloc: Global, lines: u128) -> Result<String, NoMemory>
    ensures { IfOk result (λ line. string_bytes line ≡ codes "program " ++ decimal lines) }
{
    format!(in alloc; "program {lines}")
}

// Adds the line with the number of the program's lines.
fn add_count(alloc: Global, text: &mut Vec<u8>, parts: &Parts) -> Result<(), NoMemory>
    ensures { OnOk result (text.new.items ≡ text.old.items ++ (program_line (plain parts.now) ++ codes "\n")) }
{
    let line = count_line(alloc, line_count(parts))?;
    add_line(text, line.as_bytes())
}

// Adds the canonical text of a program.
fn add_canonical(alloc: Global, text: &mut Vec<u8>, program: &Program) -> Result<(), NoMemory>
    ensures adds { OnOk result (text.new.items ≡ text.old.items ++ canonical (plain program.now)) }
    ensures written { OnOk result (IsWritten (plain program.now)) }
{
    let canonical = print(alloc, program)?;
    text.extend_from_slice(&canonical)
}

/// Adds the lines of a program: how many its canonical text has, and these.
#[tactic(auto, using(crate::proofs::Appended::appended), unfolding(soda_print::specs::Canonical::canonical))]
pub fn add_program(alloc: Global, text: &mut Vec<u8>, program: &Program) -> Result<(), NoMemory>
    ensures adds { OnOk result (text.new.items ≡ text.old.items ++ ended (program_lines (plain program.now))) }
    ensures written { OnOk result (IsWritten (plain program.now)) }
{
    add_count(alloc, text, program.parts())?;
    add_canonical(alloc, text, program)
}
