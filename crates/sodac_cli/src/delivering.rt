ghost use Rattle.std.specs.Prelude.{◌≡◌, ℕ, ◌<◌, ◌≤◌, ◌+◌, List, ℤ, All, length, IfOk, OnOk, Some};
ghost use Rattle.std.specs.Result.{IfErr};
ghost use Rattle.soda_io.specs.Store.{Store};
ghost use Rattle.soda_words.specs.Limits.{most_cells, most_tensors};
ghost use Rattle.soda_ir.specs.Program.{PlainProgram, plain};
ghost use Rattle.soda_ir.specs.Valid.{output_types};
ghost use Rattle.soda_eval.specs.Runs.{HasArrays, IsArray};
ghost use Rattle.job_arrays.specs.Arrays.{FillBurst};
ghost use Rattle.command_words.specs.Orders.{Asked};
ghost use Rattle.sodac_cli.specs.Allowed.{AllowsPlain};
ghost use Rattle.sodac_cli.specs.Correct.{Runs};
ghost use Rattle.job_status.specs.Counts.{FileFaults};
ghost use Rattle.sodac_cli.specs.Machine.Steps.{IsWriting, WritesOutput, WritesOutputs};

use crate::Status;
use job_arrays::{Layout, write_array};
use job_program::one_program_is_spoken_of;
use param_lines::params_are_one;
use soda_io::{FileRole, Files, IoErr};
use soda_ir::{Program, types_out};
use soda_words::Ty;
use sqlite_items::Items;
use std::alloc::Global;

// Writes the output of this number.
fn write_output<F: Files>(
    alloc: Global,
    files: &mut F,
    number: u32,
    id: u32,
    ty: Ty,
    layout: Layout,
    cells: &[i128],
) -> Result<(), Status>
    requires given { id < F.given files.old }
    requires small { layout.cells ≤ most_cells }
    requires some { 0 < layout.run }
    requires burst { FillBurst layout.burst ty }
    requires array { IsArray ty layout.cells cells.now }
    requires ready { F.tells → (first : ℕ) × (begun : Store) × (a : Asked) × (p : PlainProgram) × (values : List ℤ)
        × (inputs : List (List ℤ)) × WritesOutput first begun a p (F.given files.old) (F.store files.old) values inputs
        number id ty layout cells.now }
    ensures given { F.given files.new ≡ F.given files.old }
    ensures goes { F.tells → OnOk result ((first : ℕ) (begun : Store) (a : Asked) (p : PlainProgram) (values : List ℤ)
        (inputs : List (List ℤ)) → WritesOutput first begun a p (F.given files.old) (F.store files.old) values inputs
        number id ty layout cells.now
        → IsWriting first begun a p (F.given files.new) (F.store files.new) values inputs (number + 1)) }
    ensures ends { F.tells → IfErr result (λ status. (first : ℕ) (begun : Store) (a : Asked) (p : PlainProgram)
        (values : List ℤ) (inputs : List (List ℤ))
        → WritesOutput first begun a p (F.given files.old) (F.store files.old) values inputs number id ty layout
        cells.now
        → Runs first begun (Some a) (F.given files.new) (F.store files.new) status) }
    ensures kept { OnOk result (F.faults files.new ≡ F.faults files.old) }
    ensures faults { IfErr result (λ status. FileFaults (F.faults files.old) (F.faults files.new) status) }
    ensures allowed { IfErr result (λ status. AllowsPlain status) }
{
    match write_array(alloc, files, id, ty, layout, cells) {
        Ok(()) => Ok(()),
        Err(IoErr::Failed) => Err(Status::FileFault(FileRole::Output(number))),
        Err(IoErr::Memory) => Err(Status::Memory),
    }
}

// Writes the outputs of a job in order, by their ids.
fn write_outputs<F: Files>(
    alloc: Global,
    files: &mut F,
    ids: &[u32],
    types: &[Ty],
    layout: Layout,
    arrays: &[Items<i128>],
) -> Status
    requires as_many { length ids.now ≡ length types.now }
    requires few { length ids.now ≤ most_tensors }
    requires given { All (λ id. id < F.given files.old) ids.now }
    requires small { layout.cells ≤ most_cells }
    requires some { 0 < layout.run }
    requires bursts { All (λ ty. FillBurst layout.burst ty) types.now }
    requires arrays { HasArrays layout.cells types.now arrays.now }
    requires ready { F.tells → (first : ℕ) × (begun : Store) × (a : Asked) × (p : PlainProgram) × (values : List ℤ)
        × (inputs : List (List ℤ)) × WritesOutputs first begun a p (F.given files.old) (F.store files.old) values inputs
        ids.now types.now layout arrays.now }
    ensures runs { F.tells → (first : ℕ) (begun : Store) (a : Asked) (p : PlainProgram) (values : List ℤ)
        (inputs : List (List ℤ)) → WritesOutputs first begun a p (F.given files.old) (F.store files.old) values inputs
        ids.now types.now layout arrays.now
        → Runs first begun (Some a) (F.given files.new) (F.store files.new) result }
    ensures faults { FileFaults (F.faults files.old) (F.faults files.new) result }
    ensures allowed { AllowsPlain result }
{
    one_program_is_spoken_of();
    params_are_one();
    for number in 0..ids.len() {
        let cells = arrays[number].as_slice();
        if let Err(status) = write_output(
            alloc,
            files,
            number as u32,
            ids[number],
            types[number],
            layout,
            cells,
        ) {
            return status;
        }
    }
    Status::Ok
}

/// Writes the outputs of a job over these arrays, by their ids, and ends the job.
pub(crate) fn deliver<F: Files>(
    alloc: Global,
    files: &mut F,
    program: &Program,
    ids: &[u32],
    layout: Layout,
    arrays: &[Items<i128>],
) -> Status
    requires as_many { length ids.now ≡ length (output_types (plain program.now).tensors) }
    requires given { All (λ id. id < F.given files.old) ids.now }
    requires small { layout.cells ≤ most_cells }
    requires some { 0 < layout.run }
    requires burst { layout.burst ≡ (plain program.now).burst }
    requires arrays { HasArrays layout.cells (output_types (plain program.now).tensors) arrays.now }
    requires ready { F.tells → (first : ℕ) × (begun : Store) × (a : Asked) × (values : List ℤ)
        × (inputs : List (List ℤ)) × WritesOutputs first begun a (plain program.now) (F.given files.old)
        (F.store files.old) values inputs ids.now (output_types (plain program.now).tensors) layout arrays.now }
    ensures runs { F.tells → (first : ℕ) (begun : Store) (a : Asked) (values : List ℤ) (inputs : List (List ℤ))
        → WritesOutputs first begun a (plain program.now) (F.given files.old) (F.store files.old) values inputs ids.now
        (output_types (plain program.now).tensors) layout arrays.now
        → Runs first begun (Some a) (F.given files.new) (F.store files.new) result }
    ensures faults { FileFaults (F.faults files.old) (F.faults files.new) result }
    ensures allowed { AllowsPlain result }
{
    let Ok(types) = types_out(alloc, program.parts().tensors.as_slice()) else {
        return Status::Memory;
    };
    let status = write_outputs(alloc, files, ids, &types, layout, arrays);
    drop(types);
    status
}
