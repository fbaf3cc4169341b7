ghost use Rattle.std.specs.Prelude.{◌≡◌, ℕ, ◌+◌, true, OnOk, IfOk};
ghost use Rattle.std.specs.Result.{IfErr};
ghost use Rattle.soda_ir.specs.Program.{plain};
ghost use Rattle.command_words.specs.Orders.{Asked, asked};
ghost use Rattle.sodac_cli.specs.Correct.{Runs};
ghost use Rattle.job_status.specs.Counts.{FileFaults};
ghost use Rattle.sodac_cli.specs.Machine.Steps.{IsRead};
ghost use Rattle.sodac_cli.specs.Machine.Text.{HasText, IsOfText, unread_status};
ghost use Rattle.sodac_cli.specs.Work.{is_built, program_of};

use crate::Status;
use crate::judging::program_name;
use command_words::Order;
use job_files::{open_next, read_next};
use job_program::spoken_program;
use soda_io::{FileRole, Files, IoErr};
use soda_ir::Program;
use soda_parse::{ParseFail, Refusal};
use soda_words::MOST_TEXT;
use std::alloc::Global;
use whole_files::ReadFail;

// Opens the program's file and reads it.
fn read_text<F: Files>(alloc: Global, files: &mut F, name: &str) -> Result<Vec<u8>, ReadFail>
    ensures given { OnOk result (F.given files.new ≡ F.given files.old + 1) }
    ensures goes { F.tells → IfOk result (λ text. (a : Asked) → program_of a ≡ name.now →
        HasText (F.given files.old) (F.store files.old) a (F.given files.new) (F.store files.new) text.items) }
    ensures ends { F.tells → IfErr result (λ fail. (a : Asked) → program_of a ≡ name.now → is_built a ≡ true →
        Runs (F.given files.old) (F.store files.old) (Some a) (F.given files.new) (F.store files.new)
        (unread_status fail)) }
    ensures kept { OnOk result (F.faults files.new ≡ F.faults files.old) }
    ensures faults { IfErr result (λ fail. FileFaults (F.faults files.old) (F.faults files.new)
        (unread_status fail)) }
{
    match open_next(files, name) {
        Ok(id) => read_next(alloc, files, id, MOST_TEXT as usize),
        Err(IoErr::Failed) => Err(ReadFail::Failed),
        Err(IoErr::Memory) => Err(ReadFail::Memory),
    }
}

/// The program that a job speaks of, or the status with which its text ends the job.
pub(crate) fn read_program<F: Files>(
    alloc: Global,
    files: &mut F,
    order: &Order<'_>,
) -> Result<Program, Status>
    ensures given { OnOk result (F.given files.new ≡ F.given files.old + 1) }
    ensures goes { F.tells → IfOk result (λ program. IsRead (F.given files.old) (F.store files.old) (asked order.now)
        (plain program) (F.given files.new) (F.store files.new)) }
    ensures ends { F.tells → IfErr result (λ status. is_built (asked order.now) ≡ true →
        Runs (F.given files.old) (F.store files.old) (Some (asked order.now)) (F.given files.new) (F.store files.new)
        status) }
    ensures of_text { IfErr result (λ status. IsOfText status) }
    ensures kept { OnOk result (F.faults files.new ≡ F.faults files.old) }
    ensures faults { IfErr result (λ status. FileFaults (F.faults files.old) (F.faults files.new) status) }
{
    let text = match read_text(alloc, files, program_name(order)) {
        Ok(text) => text,
        Err(ReadFail::TooLong) => return Err(Status::Program(Refusal::TextTooLong)),
        Err(ReadFail::Failed) => return Err(Status::FileFault(FileRole::Program)),
        Err(ReadFail::Memory) => return Err(Status::Memory),
    };
    let spoken = spoken_program(alloc, &text, MOST_TEXT, order.share);
    drop(text);
    match spoken {
        Ok(program) => Ok(program),
        Err(ParseFail::Refused(refusal)) => Err(Status::Program(refusal)),
        Err(ParseFail::Memory) => Err(Status::Memory),
    }
}
