ghost use Rattle.std.specs.Prelude.{◌≡◌, ℕ, ◌<◌, ◌≤◌, ◌+◌, List, [], ◌∷◌, ◌++◌, ℤ, All, length, map, slice_index_or, IfOk, OnOk, Some};
ghost use Rattle.std.specs.Result.{IfErr};
ghost use Rattle.soda_io.specs.Store.{Store};
ghost use Rattle.soda_words.specs.IntType.{int32};
ghost use Rattle.soda_words.specs.Limits.{most_cells, most_tensors};
ghost use Rattle.soda_ir.specs.Program.{PlainProgram, input_types, plain};
ghost use Rattle.soda_eval.specs.Runs.{HasArrays, IsArray};
ghost use Rattle.job_arrays.specs.Arrays.{FillBurst};
ghost use Rattle.command_words.specs.Orders.{Asked};
ghost use Rattle.sodac_cli.specs.Allowed.{AllowsPlain};
ghost use Rattle.sodac_cli.specs.Correct.{Runs};
ghost use Rattle.job_status.specs.Counts.{FileFaults};
ghost use Rattle.sodac_cli.specs.Machine.Steps.{IsGathering, IsWriting, ReadsInput, ReadsInputs};
ghost use Rattle.sodac_cli.specs.Machine.Text.{unread_input};

use crate::{ArrayFault, Status};
use array_bytes::CellFault;
use job_arrays::{Layout, read_array};
use soda_io::{FileRole, Files};
use soda_ir::{Program, types_in};
use soda_words::Ty;
use sqlite_items::Items;
use std::alloc::Global;

// The status with which an input that wasn't read ends the job.
fn unread_input(input: u32, fault: CellFault) -> Status
    ensures { result ≡ unread_input input fault }
{
    match fault {
        CellFault::BadCell(_)
        | CellFault::CellRange(_)
        | CellFault::TooFew(_)
        | CellFault::TooMany
        | CellFault::TooLong => Status::Array(ArrayFault::Cell { input, fault }),
        CellFault::Failed => Status::FileFault(FileRole::Input(input)),
        CellFault::Memory => Status::Memory,
    }
}

// Reads the input of this number.
fn read_input<F: Files>(
    alloc: Global,
    files: &mut F,
    number: u32,
    id: u32,
    ty: Ty,
    layout: Layout,
) -> Result<Items<i128>, Status>
    requires given { id < F.given files.old }
    requires small { layout.cells ≤ most_cells }
    requires burst { FillBurst layout.burst ty }
    requires ready { F.tells → (first : ℕ) × (begun : Store) × (a : Asked) × (p : PlainProgram) × (values : List ℤ)
        × (arrays : List (List ℤ))
        × ReadsInput first begun a p (F.given files.old) (F.store files.old) values arrays number id ty layout }
    ensures array { IfOk result (λ cells. IsArray ty layout.cells cells) }
    ensures given { F.given files.new ≡ F.given files.old }
    ensures goes { F.tells → IfOk result (λ cells. (first : ℕ) (begun : Store) (a : Asked) (p : PlainProgram)
        (values : List ℤ) (arrays : List (List ℤ))
        → ReadsInput first begun a p (F.given files.old) (F.store files.old) values arrays number id ty layout
        → IsGathering first begun a p (F.given files.new) (F.store files.new) values (arrays ++ cells ∷ [])
        (number + 1)) }
    ensures ends { F.tells → IfErr result (λ status. (first : ℕ) (begun : Store) (a : Asked) (p : PlainProgram)
        (values : List ℤ) (arrays : List (List ℤ))
        → ReadsInput first begun a p (F.given files.old) (F.store files.old) values arrays number id ty layout
        → Runs first begun (Some a) (F.given files.new) (F.store files.new) status) }
    ensures kept { OnOk result (F.faults files.new ≡ F.faults files.old) }
    ensures faults { IfErr result (λ status. FileFaults (F.faults files.old) (F.faults files.new) status) }
    ensures allowed { IfErr result (λ status. AllowsPlain status) }
{
    match read_array(alloc, files, id, ty, layout) {
        Ok(cells) => Ok(cells),
        Err(fault) => Err(unread_input(number, fault)),
    }
}

// Reads the inputs of a job in order, by their ids.
fn read_inputs<F: Files>(
    alloc: Global,
    files: &mut F,
    ids: &[u32],
    types: &[Ty],
    layout: Layout,
) -> Result<Vec<Items<i128>>, Status>
    requires as_many { length ids.now ≡ length types.now }
    requires few { length ids.now ≤ most_tensors }
    requires given { All (λ id. id < F.given files.old) ids.now }
    requires small { layout.cells ≤ most_cells }
    requires bursts { All (λ ty. FillBurst layout.burst ty) types.now }
    requires ready { F.tells → (first : ℕ) × (begun : Store) × (a : Asked) × (p : PlainProgram) × (values : List ℤ)
        × ReadsInputs first begun a p (F.given files.old) (F.store files.old) values ids.now types.now layout }
    ensures arrays { IfOk result (λ arrays. HasArrays layout.cells types.now arrays.items) }
    ensures given { F.given files.new ≡ F.given files.old }
    ensures goes { F.tells → IfOk result (λ arrays. (first : ℕ) (begun : Store) (a : Asked) (p : PlainProgram)
        (values : List ℤ)
        → ReadsInputs first begun a p (F.given files.old) (F.store files.old) values ids.now types.now layout
        → IsWriting first begun a p (F.given files.new) (F.store files.new) values arrays.items 0) }
    ensures ends { F.tells → IfErr result (λ status. (first : ℕ) (begun : Store) (a : Asked) (p : PlainProgram)
        (values : List ℤ)
        → ReadsInputs first begun a p (F.given files.old) (F.store files.old) values ids.now types.now layout
        → Runs first begun (Some a) (F.given files.new) (F.store files.new) status) }
    ensures kept { OnOk result (F.faults files.new ≡ F.faults files.old) }
    ensures faults { IfErr result (λ status. FileFaults (F.faults files.old) (F.faults files.new) status) }
    ensures allowed { IfErr result (λ status. AllowsPlain status) }
{
    let mut arrays = Vec::new(alloc);
    for number in 0..ids.len() {
        match read_input(
            alloc,
            files,
            number as u32,
            ids[number],
            types[number],
            layout,
        ) {
            Ok(cells) => {
                let Ok(()) = arrays.push(cells) else {
                    return Err(Status::Memory);
                };
            }
            Err(status) => return Err(status),
        }
    }
    Ok(arrays)
}

/// Reads the inputs of a job whose outputs are created, by the ids of its inputs.
pub(crate) fn gather<F: Files>(
    alloc: Global,
    files: &mut F,
    program: &Program,
    ids: &[u32],
    layout: Layout,
) -> Result<Vec<Items<i128>>, Status>
    requires as_many { length ids.now ≡ length (input_types (plain program.now).tensors) }
    requires given { All (λ id. id < F.given files.old) ids.now }
    requires small { layout.cells ≤ most_cells }
    requires burst { layout.burst ≡ (plain program.now).burst }
    requires ready { F.tells → (first : ℕ) × (begun : Store) × (a : Asked) × (values : List ℤ)
        × ReadsInputs first begun a (plain program.now) (F.given files.old) (F.store files.old) values ids.now
        (input_types (plain program.now).tensors) layout }
    ensures arrays { IfOk result (λ arrays. HasArrays layout.cells (input_types (plain program.now).tensors)
        arrays.items) }
    ensures given { F.given files.new ≡ F.given files.old }
    ensures goes { F.tells → IfOk result (λ arrays. (first : ℕ) (begun : Store) (a : Asked) (values : List ℤ)
        → ReadsInputs first begun a (plain program.now) (F.given files.old) (F.store files.old) values ids.now
        (input_types (plain program.now).tensors) layout
        → IsWriting first begun a (plain program.now) (F.given files.new) (F.store files.new) values arrays.items 0) }
    ensures ends { F.tells → IfErr result (λ status. (first : ℕ) (begun : Store) (a : Asked) (values : List ℤ)
        → ReadsInputs first begun a (plain program.now) (F.given files.old) (F.store files.old) values ids.now
        (input_types (plain program.now).tensors) layout
        → Runs first begun (Some a) (F.given files.new) (F.store files.new) status) }
    ensures kept { OnOk result (F.faults files.new ≡ F.faults files.old) }
    ensures faults { IfErr result (λ status. FileFaults (F.faults files.old) (F.faults files.new) status) }
    ensures allowed { IfErr result (λ status. AllowsPlain status) }
{
    let Ok(types) = types_in(alloc, program.parts().tensors.as_slice()) else {
        return Err(Status::Memory);
    };
    let found = read_inputs(alloc, files, ids, &types, layout);
    drop(types);
    found
}
