ghost use Rattle.std.specs.Prelude.{◌≡◌, ◌≢◌, ℕ, ◌+◌, [], length, Some, None, IfOk, OnOk, option_map};
ghost use Rattle.std.specs.Result.{IfErr};
ghost use Rattle.soda_io.specs.Store.{Store};
ghost use Rattle.soda_ir.specs.Program.{PlainProgram, plain};
ghost use Rattle.soda_eval.specs.Runs.{HasValues, place_types};
ghost use Rattle.command_words.specs.Orders.{Asked};
ghost use Rattle.sodac_cli.specs.Allowed.{AllowsPlain};
ghost use Rattle.sodac_cli.specs.Correct.{Runs};
ghost use Rattle.job_status.specs.Counts.{FileFaults};
ghost use Rattle.sodac_cli.specs.Machine.Steps.{IsJudged, IsRead, IsSettled};
ghost use Rattle.sodac_cli.specs.Machine.Text.{HasLines, unread_lines};
ghost use Rattle.sodac_cli.specs.Work.{if_given};

use crate::{ArrayFault, Status};
use job_files::{open_next, read_next};
use param_lines::{LineFail, MOST_PARAMS, read_params};
use soda_io::{FileRole, Files, IoErr};
use soda_ir::Program;
use std::alloc::Global;
use whole_files::ReadFail;

// Opens the params file and reads it.
fn read_lines<F: Files>(alloc: Global, files: &mut F, name: &str) -> Result<Vec<u8>, ReadFail>
    ensures given { OnOk result (F.given files.new ≡ F.given files.old + 1) }
    ensures goes { F.tells → IfOk result (λ text. (first : ℕ) (begun : Store) (a : Asked) (p : PlainProgram)
        → a.params ≡ Some name.now → IsJudged begun.bytes a p
        → IsRead first begun a p (F.given files.old) (F.store files.old)
        → HasLines first begun a p (F.given files.new) (F.store files.new) name.now text.items) }
    ensures ends { F.tells → IfErr result (λ fail. (first : ℕ) (begun : Store) (a : Asked) (p : PlainProgram)
        → a.params ≡ Some name.now → IsJudged begun.bytes a p
        → IsRead first begun a p (F.given files.old) (F.store files.old)
        → Runs first begun (Some a) (F.given files.new) (F.store files.new) (unread_lines fail)) }
    ensures kept { OnOk result (F.faults files.new ≡ F.faults files.old) }
    ensures faults { IfErr result (λ fail. FileFaults (F.faults files.old) (F.faults files.new) (unread_lines fail)) }
{
    match open_next(files, name) {
        Ok(id) => read_next(alloc, files, id, MOST_PARAMS),
        Err(IoErr::Failed) => Err(ReadFail::Failed),
        Err(IoErr::Memory) => Err(ReadFail::Memory),
    }
}

// The values that the params file gives.
fn values_given<F: Files>(
    alloc: Global,
    files: &mut F,
    name: &str,
    program: &Program,
) -> Result<Vec<i128>, Status>
    ensures in_range { IfOk result (λ values. HasValues (place_types (plain program.now).params) values.items) }
    ensures given { OnOk result (F.given files.new ≡ F.given files.old + 1) }
    ensures goes { F.tells → IfOk result (λ values. (first : ℕ) (begun : Store) (a : Asked)
        → a.params ≡ Some name.now → IsJudged begun.bytes a (plain program.now)
        → IsRead first begun a (plain program.now) (F.given files.old) (F.store files.old)
        → IsSettled first begun a (plain program.now) (F.given files.new) (F.store files.new) values.items) }
    ensures ends { F.tells → IfErr result (λ status. (first : ℕ) (begun : Store) (a : Asked)
        → a.params ≡ Some name.now → IsJudged begun.bytes a (plain program.now)
        → IsRead first begun a (plain program.now) (F.given files.old) (F.store files.old)
        → Runs first begun (Some a) (F.given files.new) (F.store files.new) status) }
    ensures kept { OnOk result (F.faults files.new ≡ F.faults files.old) }
    ensures faults { IfErr result (λ status. FileFaults (F.faults files.old) (F.faults files.new) status) }
    ensures allowed { IfErr result (λ status. AllowsPlain status) }
{
    let text = match read_lines(alloc, files, name) {
        Ok(text) => text,
        Err(ReadFail::TooLong) => return Err(Status::Array(ArrayFault::Params(0))),
        Err(ReadFail::Failed) => return Err(Status::FileFault(FileRole::Params)),
        Err(ReadFail::Memory) => return Err(Status::Memory),
    };
    let found = read_params(alloc, program, &text);
    drop(text);
    match found {
        Ok(values) => Ok(values),
        Err(LineFail::Line(line)) => Err(Status::Array(ArrayFault::Params(line))),
        Err(LineFail::Memory) => Err(Status::Memory),
    }
}

// The values of no params, where no params file is given.
fn no_values(alloc: Global, program: &Program) -> Result<Vec<i128>, Status>
    ensures none { IfOk result (λ values. ((plain program.now).params ≡ []) × (values.items ≡ [])) }
    ensures some { IfErr result (λ status. ((plain program.now).params ≢ [])
        × (status ≡ Status.Array (ArrayFault.Params 0))) }
{
    if program.parts().params.len() == 0 {
        Ok(Vec::new(alloc))
    } else {
        Err(Status::Array(ArrayFault::Params(0)))
    }
}

/// The values of the params of a program that no step refuses, or the status with which they end the job.
pub(crate) fn param_values<F: Files>(
    alloc: Global,
    files: &mut F,
    name: Option<&str>,
    program: &Program,
) -> Result<Vec<i128>, Status>
    ensures in_range { IfOk result (λ values. HasValues (place_types (plain program.now).params) values.items) }
    ensures given { OnOk result (F.given files.new ≡ F.given files.old
        + length (if_given (option_map (λ n. n.now) name.entry))) }
    ensures goes { F.tells → IfOk result (λ values. (first : ℕ) (begun : Store) (a : Asked)
        → a.params ≡ option_map (λ n. n.now) name.entry → IsJudged begun.bytes a (plain program.now)
        → IsRead first begun a (plain program.now) (F.given files.old) (F.store files.old)
        → IsSettled first begun a (plain program.now) (F.given files.new) (F.store files.new) values.items) }
    ensures ends { F.tells → IfErr result (λ status. (first : ℕ) (begun : Store) (a : Asked)
        → a.params ≡ option_map (λ n. n.now) name.entry → IsJudged begun.bytes a (plain program.now)
        → IsRead first begun a (plain program.now) (F.given files.old) (F.store files.old)
        → Runs first begun (Some a) (F.given files.new) (F.store files.new) status) }
    ensures kept { OnOk result (F.faults files.new ≡ F.faults files.old) }
    ensures faults { IfErr result (λ status. FileFaults (F.faults files.old) (F.faults files.new) status) }
    ensures allowed { IfErr result (λ status. AllowsPlain status) }
{
    match name {
        Some(name) => values_given(alloc, files, name, program),
        None => no_values(alloc, program),
    }
}
