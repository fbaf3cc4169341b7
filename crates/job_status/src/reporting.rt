ghost use Rattle.std.specs.Prelude.{◌≡◌, ◌⊎◌, IfOk, string_bytes};
ghost use Rattle.job_status.specs.declared.status.Status.TheVariants.{Memory};
ghost use Rattle.job_status.specs.Lines.{Reports, line_of, role_text};

use crate::Status;
use crate::messages::{array_fault_text, refusal_text};
use soda_io::{FileRole, IoErr, Sink};
use std::alloc::{AllocError, Global};
use whole_files::put_whole;

// How a role is called.
fn role_text(alloc: Global, role: FileRole) -> Result<String, AllocError>
    ensures { IfOk result (λ text. string_bytes text ≡ role_text role) }
{
    match role {
        FileRole::Program => String::from_str(alloc, "program"),
        FileRole::Modules => String::from_str(alloc, "modules"),
        FileRole::Params => String::from_str(alloc, "params"),
        FileRole::Stall => String::from_str(alloc, "stall"),
        FileRole::Input(number) => format!(in alloc; "input {number}"),
        FileRole::Output(number) => format!(in alloc; "output {number}"),
    }
}

// The line of a status.
fn line(alloc: Global, status: Status) -> Result<String, AllocError>
    ensures { IfOk result (λ text. string_bytes text ≡ line_of status) }
{
    match status {
        Status::Ok => String::from_str(alloc, ""),
        Status::Usage => String::from_str(
            alloc,
            "sodac: usage: sodac [--share] [--raw] [--trace] [--params FILE] [--stall FILE] MODE WORDS\n",
        ),
        Status::Program(refusal) => {
            let message = refusal_text(alloc, refusal)?;
            format!(in alloc; "sodac: program: {message}\n")
        }
        Status::Array(fault) => {
            let message = array_fault_text(alloc, fault)?;
            format!(in alloc; "sodac: {message}\n")
        }
        Status::FileFault(role) => {
            let role = role_text(alloc, role)?;
            format!(in alloc; "sodac: file fault: {role}\n")
        }
        Status::OutFault => String::from_str(alloc, "sodac: output fault\n"),
        Status::Memory => String::from_str(alloc, "sodac: out of memory\n"),
        Status::NotYetBuilt => String::from_str(alloc, "sodac: not yet built\n"),
    }
}

/// Puts the line of a status to `err`, and answers the status. Want of memory is answered in its place, and nothing
/// more is put then.
pub fn report<E: Sink>(alloc: Global, status: Status, err: &mut E) -> Status
    ensures same { (result ≡ status) ⊎ ((result ≡ Memory) × (E.faults err.new ≡ E.faults err.old)) }
    ensures reports { E.tells → Reports (E.taken err.old) (E.taken err.new) (E.faults err.old)
        (E.faults err.new) result }
{
    let Ok(line) = line(alloc, status) else {
        return Status::Memory;
    };
    match put_whole(err, line.as_bytes()) {
        Ok(()) => status,
        Err(IoErr::Failed) => status,
        Err(IoErr::Memory) => Status::Memory,
    }
}
