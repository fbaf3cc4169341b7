ghost use Rattle.std.specs.Prelude.{◌≡◌, ℕ, Some, true, IfOk};
ghost use Rattle.soda_io.specs.Store.{Store};
ghost use Rattle.soda_ir.specs.Program.{plain};
ghost use Rattle.job_files.specs.Contents.{Holding};
ghost use Rattle.command_words.specs.Orders.{Asked, asked};
ghost use Rattle.sodac_cli.specs.Allowed.{AllowsPrinting};
ghost use Rattle.sodac_cli.specs.Correct.{Runs};
ghost use Rattle.job_status.specs.Counts.{FileFaults, OutFaults};
ghost use Rattle.sodac_cli.specs.Machine.Steps.{IsRead, OnlyPrints};
ghost use Rattle.sodac_cli.specs.Printed.{IsPrinted, Prints};
ghost use Rattle.sodac_cli.specs.Work.{HasProgram, is_built};

use crate::Status;
use crate::program::read_program;
use command_words::{Mode, Order};
use plan_job::plan_text;
use soda_io::{Files, IoErr, Sink};
use soda_ir::{NoMemory, Program};
use soda_parse::print;
use std::alloc::Global;
use whole_files::put_whole;

// The lines that a mode prints for a program.
fn lines_of(alloc: Global, mode: Mode, program: &Program) -> Result<Vec<u8>, NoMemory>
    requires { OnlyPrints mode }
    ensures { IfOk result (λ lines. IsPrinted mode (plain program.now) lines.items) }
{
    match mode {
        Mode::Check => print(alloc, program),
        Mode::Plan => plan_text(alloc, program),
        Mode::Plain | Mode::Compile | Mode::Sim | Mode::Selftest => Ok(Vec::new(alloc)),
    }
}

// Prints the lines of a mode that only prints, for a program.
fn print_lines<S: Sink>(alloc: Global, mode: Mode, program: &Program, out: &mut S) -> Status
    requires only { OnlyPrints mode }
    ensures runs { (first : ℕ) (begun : Store) (a : Asked) (given : ℕ) (now : Store) → OnlyPrints a.mode
        → is_built a ≡ true → IsRead first begun a (plain program.now) given now
        → Runs first begun (Some a) given now result }
    ensures faults { (count : ℕ) → FileFaults count count result }
    ensures prints { S.tells → (holding : Holding) (a : Asked) → a.mode ≡ mode → OnlyPrints mode
        → HasProgram holding a (plain program.now)
        → Prints holding (Some a) (S.taken out.old) (S.taken out.new) result }
    ensures out_faults { OutFaults (S.faults out.old) (S.faults out.new) result }
    ensures allowed { AllowsPrinting result }
{
    let Ok(lines) = lines_of(alloc, mode, program) else {
        return Status::Memory;
    };
    let put = put_whole(out, &lines);
    drop(lines);
    match put {
        Ok(()) => Status::Ok,
        Err(IoErr::Failed) => Status::OutFault,
        Err(IoErr::Memory) => Status::Memory,
    }
}

/// Does a job of a mode that only prints: prints its lines for the program.
pub(crate) fn print_job<F: Files, S: Sink>(
    alloc: Global,
    order: &Order<'_>,
    files: &mut F,
    out: &mut S,
) -> Status
    requires only { OnlyPrints order.now.mode }
    requires built { is_built (asked order.now) ≡ true }
    ensures runs { F.tells → Runs (F.given files.old) (F.store files.old) (Some (asked order.now)) (F.given files.new)
        (F.store files.new) result }
    ensures faults { FileFaults (F.faults files.old) (F.faults files.new) result }
    ensures prints { F.tells → S.tells → Prints (F.store files.old).bytes (Some (asked order.now)) (S.taken out.old)
        (S.taken out.new) result }
    ensures out_faults { OutFaults (S.faults out.old) (S.faults out.new) result }
    ensures allowed { AllowsPrinting result }
{
    match read_program(alloc, files, order) {
        Ok(program) => {
            let status = print_lines(alloc, order.mode, &program, out);
            drop(program);
            status
        }
        Err(status) => status,
    }
}
