ghost use Rattle.std.specs.Prelude.{◌≡◌, ℕ, ◌+◌, ◌<◌, ◌≤◌, true, List, ℤ, All, length, Some, IfOk, OnOk, []};
ghost use Rattle.std.specs.Result.{IfErr};
ghost use Rattle.soda_io.specs.Store.{Store};
ghost use Rattle.soda_words.specs.Limits.{most_cells};
ghost use Rattle.soda_ir.specs.Program.{PlainProgram, input_types, plain};
ghost use Rattle.soda_ir.specs.Valid.{output_types};
ghost use Rattle.soda_eval.specs.Runs.{HasArrays, HasValues, cells_at, defined_arrays, place_types};
ghost use Rattle.job_files.specs.Files.{ids_from, names_of};
ghost use Rattle.command_words.specs.declared.mode.Mode.{Mode as PlainMode};
ghost use Rattle.command_words.specs.Orders.{Asked, asked};
ghost use Rattle.sodac_cli.specs.Allowed.{AllowsPlain};
ghost use Rattle.sodac_cli.specs.Correct.{Runs};
ghost use Rattle.job_status.specs.Counts.{FileFaults};
ghost use Rattle.sodac_cli.specs.Machine.Steps.{IsGathering, IsRead, IsReady, IsSettled, LetsPass};
ghost use Rattle.sodac_cli.specs.Work.{input_count, input_names, is_built, output_count, output_names, rows_of};

use crate::Status;
use crate::arrays::{create_outputs, open_inputs};
use crate::delivering::deliver;
use crate::gathering::gather;
use crate::judging::{input_count, judge};
use crate::params::param_values;
use crate::program::read_program;
use crate::types::layout_of;
use command_words::Order;
use soda_eval::cells_are_in_range;
use soda_io::Files;
use soda_ir::{NoMemory, Program};
use soda_run::plain_run;
use sqlite_items::Items;
use std::alloc::Global;

// Opens the inputs and creates the outputs of a job, and gives their ids.
fn make<F: Files>(
    alloc: Global,
    inputs: &[&str],
    outputs: &[&str],
    files: &mut F,
) -> Result<(Vec<u32>, Vec<u32>), Status>
    ensures inputs { IfOk result (λ ids. ids.0.items ≡ ids_from (F.given files.old) (length inputs.now)) }
    ensures outputs { IfOk result (λ ids. ids.1.items ≡ ids_from (F.given files.old + length inputs.now)
        (length outputs.now)) }
    ensures given { OnOk result (F.given files.new ≡ F.given files.old + length inputs.now + length outputs.now) }
    ensures goes { F.tells → OnOk result ((first : ℕ) (begun : Store) (a : Asked) (p : PlainProgram) (values : List ℤ)
        → names_of inputs.now ≡ input_names a p → names_of outputs.now ≡ output_names a p
        → IsSettled first begun a p (F.given files.old) (F.store files.old) values
        → IsGathering first begun a p (F.given files.new) (F.store files.new) values [] 0) }
    ensures ends { F.tells → IfErr result (λ status. (first : ℕ) (begun : Store) (a : Asked) (p : PlainProgram)
        (values : List ℤ) → names_of inputs.now ≡ input_names a p → names_of outputs.now ≡ output_names a p
        → IsSettled first begun a p (F.given files.old) (F.store files.old) values
        → Runs first begun (Some a) (F.given files.new) (F.store files.new) status) }
    ensures kept { OnOk result (F.faults files.new ≡ F.faults files.old) }
    ensures faults { IfErr result (λ status. FileFaults (F.faults files.old) (F.faults files.new) status) }
    ensures allowed { IfErr result (λ status. AllowsPlain status) }
{
    let opened = open_inputs(alloc, files, inputs)?;
    let created = create_outputs(alloc, files, outputs)?;
    Ok((opened, created))
}

// The arrays of the outputs over those of the inputs.
fn evaluate(
    alloc: Global,
    program: &Program,
    rows: u64,
    inputs: Vec<Items<i128>>,
    values: &[i128],
) -> Result<Vec<Items<i128>>, NoMemory>
    requires small { cells_at (plain program.now) rows ≤ most_cells }
    requires inputs { HasArrays (cells_at (plain program.now) rows) (input_types (plain program.now).tensors)
        inputs.items }
    requires params { HasValues (place_types (plain program.now).params) values.now }
    ensures defined { IfOk result (λ arrays. arrays.items ≡ defined_arrays (plain program.now) rows values.now
        inputs.items) }
    ensures in_range { IfOk result (λ arrays. HasArrays (cells_at (plain program.now) rows)
        (output_types (plain program.now).tensors) arrays.items) }
{
    cells_are_in_range();
    let parts = program.parts();
    let arrays = plain_run(alloc, program, rows, inputs.as_slice(), values);
    drop(inputs);
    arrays
}

// Reads the inputs and writes the outputs, by their ids.
fn run<F: Files>(
    alloc: Global,
    order: &Order<'_>,
    program: &Program,
    values: &[i128],
    inputs: &[u32],
    outputs: &[u32],
    files: &mut F,
) -> Status
    requires small { cells_at (plain program.now) (rows_of (asked order.now)) ≤ most_cells }
    requires params { HasValues (place_types (plain program.now).params) values.now }
    requires inputs { length inputs.now ≡ input_count (plain program.now) }
    requires outputs { length outputs.now ≡ output_count (plain program.now) }
    requires inputs_given { All (λ id. id < F.given files.old) inputs.now }
    requires outputs_given { All (λ id. id < F.given files.old) outputs.now }
    requires ready { F.tells → (first : ℕ) × (begun : Store)
        × IsReady first begun (asked order.now) (plain program.now) (F.given files.old) (F.store files.old) values.now
        inputs.now outputs.now }
    ensures runs { F.tells → (first : ℕ) (begun : Store)
        → IsReady first begun (asked order.now) (plain program.now) (F.given files.old) (F.store files.old) values.now
        inputs.now outputs.now
        → Runs first begun (Some (asked order.now)) (F.given files.new) (F.store files.new) result }
    ensures faults { FileFaults (F.faults files.old) (F.faults files.new) result }
    ensures allowed { AllowsPlain result }
{
    let layout = layout_of(order, program);
    let gathered = match gather(alloc, files, program, inputs, layout) {
        Ok(arrays) => arrays,
        Err(status) => return status,
    };
    match evaluate(alloc, program, order.rows.unwrap_or(0), gathered, values) {
        Ok(arrays) => {
            let status = deliver(alloc, files, program, outputs, layout, arrays.as_slice());
            drop(arrays);
            status
        }
        Err(_) => Status::Memory,
    }
}

// Does a job whose params are read.
fn with_params<F: Files>(
    alloc: Global,
    order: &Order<'_>,
    program: &Program,
    values: &[i128],
    files: &mut F,
) -> Status
    requires pass { LetsPass (asked order.now) (plain program.now) }
    requires params { HasValues (place_types (plain program.now).params) values.now }
    requires settled { F.tells → (first : ℕ) × (begun : Store)
        × IsSettled first begun (asked order.now) (plain program.now) (F.given files.old) (F.store files.old)
        values.now }
    ensures runs { F.tells → (first : ℕ) (begun : Store)
        → IsSettled first begun (asked order.now) (plain program.now) (F.given files.old) (F.store files.old) values.now
        → Runs first begun (Some (asked order.now)) (F.given files.new) (F.store files.new) result }
    ensures faults { FileFaults (F.faults files.old) (F.faults files.new) result }
    ensures allowed { AllowsPlain result }
{
    let (inputs, outputs) = order.names.as_slice().split_at(input_count(program));
    match make(alloc, inputs, outputs, files) {
        Ok((opened, created)) => {
            let status = run(alloc, order, program, values, &opened, &created, files);
            drop(opened);
            drop(created);
            status
        }
        Err(status) => status,
    }
}

// Does a job over its program.
fn over<F: Files>(alloc: Global, order: &Order<'_>, program: &Program, files: &mut F) -> Status
    requires mode { order.now.mode ≡ PlainMode.Plain }
    requires built { is_built (asked order.now) ≡ true }
    requires read { F.tells → (first : ℕ) × (begun : Store) × IsRead first begun (asked order.now) (plain program.now)
        (F.given files.old) (F.store files.old) }
    ensures runs { F.tells → (first : ℕ) (begun : Store)
        → IsRead first begun (asked order.now) (plain program.now) (F.given files.old) (F.store files.old)
        → Runs first begun (Some (asked order.now)) (F.given files.new) (F.store files.new) result }
    ensures faults { FileFaults (F.faults files.old) (F.faults files.new) result }
    ensures allowed { AllowsPlain result }
{
    if let Err(status) = judge(order, program) {
        return status;
    }
    match param_values(alloc, files, order.params, program) {
        Ok(values) => {
            let status = with_params(alloc, order, program, &values, files);
            drop(values);
            status
        }
        Err(status) => status,
    }
}

/// Does a job of the mode `plain`: writes its arrays, evaluated in memory.
pub(crate) fn plain<F: Files>(alloc: Global, order: &Order<'_>, files: &mut F) -> Status
    requires mode { order.now.mode ≡ PlainMode.Plain }
    requires built { is_built (asked order.now) ≡ true }
    ensures runs { F.tells → Runs (F.given files.old) (F.store files.old) (Some (asked order.now)) (F.given files.new)
        (F.store files.new) result }
    ensures faults { FileFaults (F.faults files.old) (F.faults files.new) result }
    ensures allowed { AllowsPlain result }
{
    match read_program(alloc, files, order) {
        Ok(program) => {
            let status = over(alloc, order, &program, files);
            drop(program);
            status
        }
        Err(status) => status,
    }
}
