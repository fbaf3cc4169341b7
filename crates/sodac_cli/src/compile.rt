ghost use Rattle.std.specs.Prelude.{◌≡◌, ℕ, List, true, Some, OnOk};
ghost use Rattle.std.specs.Result.{IfErr};
ghost use Rattle.soda_io.specs.Store.{Store};
ghost use Rattle.job_files.specs.Contents.{Holding};
ghost use Rattle.soda_ir.specs.Program.{PlainProgram, plain};
ghost use Rattle.command_words.specs.declared.mode.Mode.{Mode as PlainMode};
ghost use Rattle.command_words.specs.Orders.{Asked, asked};
ghost use Rattle.sodac_cli.specs.Allowed.{AllowsCompile};
ghost use Rattle.sodac_cli.specs.Correct.{Runs};
ghost use Rattle.job_status.specs.Counts.{FileFaults, OutFaults};
ghost use Rattle.sodac_cli.specs.Machine.Modules.{IsDesigned, IsMade, IsOfModules, WritesModules};
ghost use Rattle.compile_job.specs.Modules.{IsModuleText, IsSizeText};
ghost use Rattle.sodac_cli.specs.Printed.{Prints};
ghost use Rattle.sodac_cli.specs.Machine.Steps.{IsRead};
ghost use Rattle.sodac_cli.specs.Work.{HasProgram, is_built, target_of};

use crate::Status;
use crate::program::read_program;
use command_words::Order;
use compile_job::{BuildRefusal, compile_program};
use job_files::{create_next, write_to};
use soda_io::{FileRole, Files, IoErr, Sink};
use soda_ir::Program;
use soda_parse::Refusal;
use std::alloc::Global;
use whole_files::put_whole;

// The name of the file that is written to. The mode that writes a module text has one.
fn target_name<'a>(order: &Order<'a>) -> &'a str
    ensures { result.now ≡ target_of (asked order.now) }
{
    match order.target {
        Some(name) => name,
        None => "",
    }
}

// Creates the file of this name and writes the text to it.
fn write_text<F: Files>(files: &mut F, name: &str, text: &[u8]) -> Result<(), Status>
    ensures goes { F.tells → OnOk result ((first : ℕ) (begun : Store) (a : Asked) (p : PlainProgram)
        → target_of a ≡ name.now → IsModuleText p text.now
        → IsDesigned first begun a p (F.given files.old) (F.store files.old)
        → IsMade first begun a p (F.given files.new) (F.store files.new) text.now) }
    ensures ends { F.tells → IfErr result (λ status. (first : ℕ) (begun : Store) (a : Asked) (p : PlainProgram)
        → target_of a ≡ name.now → IsModuleText p text.now
        → IsDesigned first begun a p (F.given files.old) (F.store files.old)
        → Runs first begun (Some a) (F.given files.new) (F.store files.new) status) }
    ensures kept { OnOk result (F.faults files.new ≡ F.faults files.old) }
    ensures faults { IfErr result (λ status. FileFaults (F.faults files.old) (F.faults files.new) status) }
    ensures of_file { IfErr result (λ status. IsOfModules status) }
{
    match create_next(files, name) {
        Ok(id) => match write_to(files, id, text) {
            Ok(()) => Ok(()),
            Err(IoErr::Failed) => Err(Status::FileFault(FileRole::Modules)),
            Err(IoErr::Memory) => Err(Status::Memory),
        },
        Err(IoErr::Failed) => Err(Status::FileFault(FileRole::Modules)),
        Err(IoErr::Memory) => Err(Status::Memory),
    }
}

// Puts the lines to standard output, where the text is written.
fn put_lines<S: Sink>(out: &mut S, lines: &[u8]) -> Status
    ensures runs { (first : ℕ) (begun : Store) (a : Asked) (p : PlainProgram) (given : ℕ) (now : Store) (text : List ℕ)
        → IsModuleText p text → IsMade first begun a p given now text → Runs first begun (Some a) given now result }
    ensures faults { (count : ℕ) → FileFaults count count result }
    ensures prints { S.tells → (holding : Holding) (a : Asked) (p : PlainProgram) → a.mode ≡ PlainMode.Compile
        → HasProgram holding a p → IsSizeText p lines.now
        → Prints holding (Some a) (S.taken out.old) (S.taken out.new) result }
    ensures out_faults { OutFaults (S.faults out.old) (S.faults out.new) result }
    ensures allowed { AllowsCompile result }
{
    match put_whole(out, lines) {
        Ok(()) => Status::Ok,
        Err(IoErr::Failed) => Status::OutFault,
        Err(IoErr::Memory) => Status::Memory,
    }
}

// Writes the text of a design to its file, and prints its lines.
fn deliver<F: Files, S: Sink>(
    name: &str,
    text: &[u8],
    lines: &[u8],
    files: &mut F,
    out: &mut S,
) -> Status
    ensures runs { F.tells → (first : ℕ) (begun : Store) (a : Asked) (p : PlainProgram) → target_of a ≡ name.now
        → IsModuleText p text.now → IsDesigned first begun a p (F.given files.old) (F.store files.old)
        → Runs first begun (Some a) (F.given files.new) (F.store files.new) result }
    ensures faults { FileFaults (F.faults files.old) (F.faults files.new) result }
    ensures prints { S.tells → (holding : Holding) (a : Asked) (p : PlainProgram) → a.mode ≡ PlainMode.Compile
        → HasProgram holding a p → IsSizeText p lines.now
        → Prints holding (Some a) (S.taken out.old) (S.taken out.new) result }
    ensures out_faults { OutFaults (S.faults out.old) (S.faults out.new) result }
    ensures allowed { AllowsCompile result }
{
    match write_text(files, name, text) {
        Ok(()) => put_lines(out, lines),
        Err(status) => status,
    }
}

// Does a job over its program.
fn over<F: Files, S: Sink>(
    alloc: Global,
    name: &str,
    program: Program,
    files: &mut F,
    out: &mut S,
) -> Status
    ensures runs { F.tells → (first : ℕ) (begun : Store) (a : Asked) → target_of a ≡ name.now → WritesModules a
        → IsRead first begun a (plain program) (F.given files.old) (F.store files.old)
        → Runs first begun (Some a) (F.given files.new) (F.store files.new) result }
    ensures faults { FileFaults (F.faults files.old) (F.faults files.new) result }
    ensures prints { S.tells → (holding : Holding) (a : Asked) → a.mode ≡ PlainMode.Compile
        → HasProgram holding a (plain program)
        → Prints holding (Some a) (S.taken out.old) (S.taken out.new) result }
    ensures out_faults { OutFaults (S.faults out.old) (S.faults out.new) result }
    ensures allowed { AllowsCompile result }
{
    match compile_program(alloc, program) {
        Ok(made) => {
            let status = deliver(name, &made.text, made.size.as_bytes(), files, out);
            drop(made);
            status
        }
        Err(BuildRefusal::Limit(kind, number)) => Status::Program(Refusal::Limit(kind, number)),
        Err(BuildRefusal::Memory) => Status::Memory,
    }
}

/// Does a job of the mode `compile`: writes the text of the program's design to its file, and prints its size.
pub(crate) fn compile<F: Files, S: Sink>(
    alloc: Global,
    order: &Order<'_>,
    files: &mut F,
    out: &mut S,
) -> Status
    requires mode { order.now.mode ≡ PlainMode.Compile }
    requires built { is_built (asked order.now) ≡ true }
    ensures runs { F.tells → Runs (F.given files.old) (F.store files.old) (Some (asked order.now)) (F.given files.new)
        (F.store files.new) result }
    ensures faults { FileFaults (F.faults files.old) (F.faults files.new) result }
    ensures prints { F.tells → S.tells → Prints (F.store files.old).bytes (Some (asked order.now)) (S.taken out.old)
        (S.taken out.new) result }
    ensures out_faults { OutFaults (S.faults out.old) (S.faults out.new) result }
    ensures allowed { AllowsCompile result }
{
    match read_program(alloc, files, order) {
        Ok(program) => over(alloc, target_name(order), program, files, out),
        Err(status) => status,
    }
}
