ghost use Rattle.std.specs.Prelude.{◌≡◌, ℕ, ◌+◌, List, ℤ, length, IfOk, OnOk, [], Some};
ghost use Rattle.std.specs.Result.{IfErr};
ghost use Rattle.soda_io.specs.Store.{Store};
ghost use Rattle.soda_ir.specs.Program.{PlainProgram};
ghost use Rattle.job_files.specs.Files.{ids_from, names_of};
ghost use Rattle.command_words.specs.Orders.{Asked};
ghost use Rattle.sodac_cli.specs.Allowed.{AllowsPlain};
ghost use Rattle.sodac_cli.specs.Correct.{Runs};
ghost use Rattle.job_status.specs.Counts.{FileFaults};
ghost use Rattle.sodac_cli.specs.Machine.Steps.{IsGathering, IsOpened, IsSettled};
ghost use Rattle.sodac_cli.specs.Work.{input_names, output_names};

use crate::Status;
use job_files::{StepFail, create_all, open_all};
use soda_io::{FileRole, Files};
use std::alloc::Global;

/// Opens the inputs of a job, and gives their ids.
pub(crate) fn open_inputs<F: Files>(
    alloc: Global,
    files: &mut F,
    names: &[&str],
) -> Result<Vec<u32>, Status>
    ensures ids { IfOk result (λ ids. ids.items ≡ ids_from (F.given files.old) (length names.now)) }
    ensures given { OnOk result (F.given files.new ≡ F.given files.old + length names.now) }
    ensures goes { F.tells → OnOk result ((first : ℕ) (begun : Store) (a : Asked) (p : PlainProgram) (values : List ℤ)
        → names_of names.now ≡ input_names a p
        → IsSettled first begun a p (F.given files.old) (F.store files.old) values
        → IsOpened first begun a p (F.given files.new) (F.store files.new) values) }
    ensures ends { F.tells → IfErr result (λ status. (first : ℕ) (begun : Store) (a : Asked) (p : PlainProgram)
        (values : List ℤ) → names_of names.now ≡ input_names a p
        → IsSettled first begun a p (F.given files.old) (F.store files.old) values
        → Runs first begun (Some a) (F.given files.new) (F.store files.new) status) }
    ensures kept { OnOk result (F.faults files.new ≡ F.faults files.old) }
    ensures faults { IfErr result (λ status. FileFaults (F.faults files.old) (F.faults files.new) status) }
    ensures allowed { IfErr result (λ status. AllowsPlain status) }
{
    match open_all(alloc, files, names) {
        Ok(ids) => Ok(ids),
        Err(StepFail::Failed(number)) => Err(Status::FileFault(FileRole::Input(number))),
        Err(StepFail::Memory) => Err(Status::Memory),
    }
}

/// Creates the outputs of a job, and gives their ids.
pub(crate) fn create_outputs<F: Files>(
    alloc: Global,
    files: &mut F,
    names: &[&str],
) -> Result<Vec<u32>, Status>
    ensures ids { IfOk result (λ ids. ids.items ≡ ids_from (F.given files.old) (length names.now)) }
    ensures given { OnOk result (F.given files.new ≡ F.given files.old + length names.now) }
    ensures goes { F.tells → OnOk result ((first : ℕ) (begun : Store) (a : Asked) (p : PlainProgram) (values : List ℤ)
        → names_of names.now ≡ output_names a p
        → IsOpened first begun a p (F.given files.old) (F.store files.old) values
        → IsGathering first begun a p (F.given files.new) (F.store files.new) values [] 0) }
    ensures ends { F.tells → IfErr result (λ status. (first : ℕ) (begun : Store) (a : Asked) (p : PlainProgram)
        (values : List ℤ) → names_of names.now ≡ output_names a p
        → IsOpened first begun a p (F.given files.old) (F.store files.old) values
        → Runs first begun (Some a) (F.given files.new) (F.store files.new) status) }
    ensures kept { OnOk result (F.faults files.new ≡ F.faults files.old) }
    ensures faults { IfErr result (λ status. FileFaults (F.faults files.old) (F.faults files.new) status) }
    ensures allowed { IfErr result (λ status. AllowsPlain status) }
{
    match create_all(alloc, files, names) {
        Ok(ids) => Ok(ids),
        Err(StepFail::Failed(number)) => Err(Status::FileFault(FileRole::Output(number))),
        Err(StepFail::Memory) => Err(Status::Memory),
    }
}
