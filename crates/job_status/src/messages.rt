ghost use Rattle.std.specs.Prelude.{◌≡◌, IfOk, string_bytes};
ghost use Rattle.job_status.specs.Lines.{array_fault_text, at_line, cell_text, kind_text, need_text, refusal_text};

use crate::ArrayFault;
use array_bytes::CellFault;
use soda_parse::{LimitKind, Need, Refusal};
use std::alloc::{AllocError, Global};

// How a statement that is missing is called.
fn need_text(need: Need) -> &'static str
    ensures { result.now ≡ need_text need }
{
    match need {
        Need::Kernel => "kernel",
        Need::BurstWidth => "burst width",
        Need::UnrollFactor => "unroll factor",
        Need::Input => "input",
        Need::Output => "output",
    }
}

// How a limit is called.
fn kind_text(kind: LimitKind) -> &'static str
    ensures { result.now ≡ kind_text kind }
{
    match kind {
        LimitKind::Unroll => "unroll",
        LimitKind::Iterate => "iterate",
        LimitKind::Dims => "dims",
        LimitKind::Tile => "tile",
        LimitKind::Offset => "offset",
        LimitKind::Tensors => "tensors",
        LimitKind::Params => "params",
        LimitKind::Live => "live",
        LimitKind::Reads => "reads",
        LimitKind::Delay => "delay",
        LimitKind::Reuse => "reuse",
        LimitKind::Modules => "modules",
        LimitKind::Cells => "cells",
        LimitKind::Total => "total",
    }
}

// What is wrong on a line of the program.
fn at_line(alloc: Global, line: u64, text: &str) -> Result<String, AllocError>
    ensures { IfOk result (λ found. string_bytes found ≡ at_line line text.now) }
{
    format!(in alloc; "line {line}: {text}")
}

// The message of a limit that is passed.
fn limit_text(alloc: Global, kind: LimitKind, number: u128) -> Result<String, AllocError>
    ensures { IfOk result (λ found. string_bytes found ≡ refusal_text (Refusal.Limit kind number)) }
{
    let kind = kind_text(kind);
    format!(in alloc; "limit {kind} {number}")
}

// The message of a statement that is missing.
fn missing_text(alloc: Global, need: Need) -> Result<String, AllocError>
    ensures { IfOk result (λ found. string_bytes found ≡ refusal_text (Refusal.Missing need)) }
{
    let need = need_text(need);
    format!(in alloc; "missing {need}")
}

/// The message of a refusal of the program.
pub(crate) fn refusal_text(alloc: Global, refusal: Refusal) -> Result<String, AllocError>
    ensures { IfOk result (λ found. string_bytes found ≡ refusal_text refusal) }
{
    match refusal {
        Refusal::TextTooLong => String::from_str(alloc, "text too long"),
        Refusal::NotAscii(line) => at_line(alloc, line, "not ascii"),
        Refusal::Syntax(line) => at_line(alloc, line, "syntax"),
        Refusal::Missing(need) => missing_text(alloc, need),
        Refusal::Twice(line) => at_line(alloc, line, "twice"),
        Refusal::FloatType(line) => at_line(alloc, line, "float type"),
        Refusal::BadWidth(line) => at_line(alloc, line, "bad type"),
        Refusal::NameTwice(line) => at_line(alloc, line, "name taken"),
        Refusal::UnknownName(line) => at_line(alloc, line, "unknown name"),
        Refusal::WrongDims(line) => at_line(alloc, line, "wrong number of offsets"),
        Refusal::Circular(line) => at_line(alloc, line, "circular"),
        Refusal::IterateMismatch => String::from_str(alloc, "iterate mismatch"),
        Refusal::PreserveMismatch => String::from_str(alloc, "preserve mismatch"),
        Refusal::Tile(line) => at_line(alloc, line, "tile"),
        Refusal::Limit(kind, number) => limit_text(alloc, kind, number),
        Refusal::BurstWidth(width) => format!(in alloc; "burst width {width}"),
        Refusal::ParamUse(line) => at_line(alloc, line, "param use"),
    }
}

// The message of a fault of an array.
fn cell_text(alloc: Global, fault: CellFault) -> Result<String, AllocError>
    ensures { IfOk result (λ found. string_bytes found ≡ cell_text fault) }
{
    match fault {
        CellFault::BadCell(number) => format!(in alloc; "bad cell {number}"),
        CellFault::CellRange(number) => format!(in alloc; "cell {number} out of range"),
        CellFault::TooFew(number) => format!(in alloc; "too few cells {number}"),
        CellFault::TooMany => String::from_str(alloc, "too many cells"),
        CellFault::TooLong => String::from_str(alloc, "too long"),
        CellFault::Failed => String::from_str(alloc, "failed"),
        CellFault::Memory => String::from_str(alloc, "out of memory"),
    }
}

/// The message of what is wrong with what a file holds.
pub(crate) fn array_fault_text(alloc: Global, fault: ArrayFault) -> Result<String, AllocError>
    ensures { IfOk result (λ found. string_bytes found ≡ array_fault_text fault) }
{
    match fault {
        ArrayFault::Cell { input, fault } => {
            let message = cell_text(alloc, fault)?;
            format!(in alloc; "input {input}: {message}")
        }
        ArrayFault::Params(line) => format!(in alloc; "params: line {line}"),
        ArrayFault::Stall(line) => format!(in alloc; "stall: line {line}"),
    }
}
