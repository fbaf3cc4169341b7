ghost use Rattle.std.specs.Prelude.{◌≡◌, ℕ, ◌-◌, ◌*◌, ◌^◌, ◌<◌, ◌≤◌, suc, [], List, pos, length, map, replicate, slice_index_or, slice_set, IfOk, OnOk, if◌then◌else◌};
ghost use Rattle.soda_words.specs.Limits.{most_cells};
ghost use Rattle.soda_ir.specs.Points.{listed, size};
ghost use Rattle.soda_ir.specs.Program.{input_types, plain};
ghost use Rattle.soda_eval.specs.Arrays.{Given};
ghost use Rattle.soda_eval.specs.Runs.{HasArrays, HasValues, cells_at, place_types, run_of};
ghost use Rattle.time_stages.specs.Placing.{placing_order};
ghost use Rattle.soda_run.specs.pieces.Filled.{AreFilled, Begins, CanFill, IsPlan, made, outside_of};

use crate::NoMemory;
use crate::border::{border_of, outside};
use crate::exchange::{exchange, put_back, take_out};
use crate::fill::Target;
use crate::sizes::{all_extents, size};
use soda_ir::{Parts, Program};
use sqlite_items::Items;
use std::alloc::Global;
use time_stages::{Margins, first_margins, next_margins, output_numbers, placing_order};

/// What all iterations of a run share.
#[derive(Drop)]
pub(crate) struct Plan {
    /// All extents of an array.
    pub extents: Items<u64>,
    /// The locals and outputs in placing order.
    pub order: Items<u32>,
    /// The outputs in number order.
    pub outputs: Items<u32>,
}

/// The plan of a run over so many rows.
pub(crate) fn make_plan(alloc: Global, program: &Program, rows: u64) -> Result<Plan, NoMemory>
    ensures { IfOk result (λ plan. IsPlan (plain program.now) rows plan) }
{
    let parts = program.parts();
    let extents = all_extents(alloc, parts, rows)?;
    let order = Items::from_vec(placing_order(alloc, program)?);
    let outputs = Items::from_vec(output_numbers(alloc, parts)?);
    Ok(Plan {
        extents,
        order,
        outputs,
    })
}

// The array of an input, and one of zeros past the last.
fn first_array(
    alloc: Global,
    inputs: &[Items<i128>],
    tensor: u32,
    cells: usize,
) -> Result<Items<i128>, NoMemory>
    ensures { IfOk result (λ array. array ≡ slice_index_or inputs.now tensor (replicate cells (pos 0))) }
{
    match inputs.get(tensor as usize) {
        Some(array) => Items::from_slice(alloc, array.as_slice()),
        None => Ok(Items::from_vec(vec![in alloc; 0; cells]?)),
    }
}

// An array for each of so many tensors, those of the inputs first.
fn first_arrays(
    alloc: Global,
    inputs: &[Items<i128>],
    tensors: u32,
    cells: usize,
) -> Result<Vec<Items<i128>>, NoMemory>
    ensures { IfOk result (λ arrays. arrays.items
        ≡ listed (λ x. slice_index_or inputs.now x (replicate cells (pos 0))) tensors) }
{
    let mut arrays = Vec::new(alloc);
    for tensor in 0..tensors {
        arrays.push(first_array(alloc, inputs, tensor, cells)?)?;
    }
    Ok(arrays)
}

// Fills a tensor, over what its array holds.
fn fill_tensor(
    alloc: Global,
    program: &Program,
    rows: u64,
    plan: &Plan,
    params: &[i128],
    margins: &Margins,
    arrays: &mut [Items<i128>],
    tensor: u32,
)
    requires plan { IsPlan (plain program.now) rows plan.now }
    requires small { cells_at (plain program.now) rows ≤ most_cells }
    requires params { HasValues (place_types (plain program.now).params) params.now }
    requires there { tensor < length arrays.old }
    requires whole { length (slice_index_or arrays.old tensor []) ≡ cells_at (plain program.now) rows }
    requires ready { CanFill (plain program.now) rows (slice_set arrays.old tensor []) tensor margins.now }
    ensures { arrays.new ≡ slice_set arrays.old tensor (listed (made (plain program.now) rows
        (slice_set arrays.old tensor []) params.now tensor margins.now
        (outside_of (plain program.now) (slice_set arrays.old tensor []) tensor)) (cells_at (plain program.now) rows)) }
{
    let parts = program.parts();
    let border = border_of(parts, tensor);
    let mut cells = take_out(alloc, arrays, tensor);
    let target = Target {
        program,
        rows,
        arrays,
        params,
        tensor,
        margins,
        outside: outside(arrays, border),
    };
    target.fill(plan.extents.as_slice(), &mut cells);
    put_back(arrays, tensor, cells);
}

// Fills all locals and outputs of an iteration.
fn fill_all(
    alloc: Global,
    program: &Program,
    rows: u64,
    plan: &Plan,
    params: &[i128],
    margins: &[Margins],
    arrays: &mut [Items<i128>],
)
    requires plan { IsPlan (plain program.now) rows plan.now }
    requires small { cells_at (plain program.now) rows ≤ most_cells }
    requires params { HasValues (place_types (plain program.now).params) params.now }
    requires begun { (g : Given) × Begins (plain program.now) rows g params.now margins.now
        × AreFilled (plain program.now) rows g params.now [] arrays.old }
    ensures { (g : Given) → Begins (plain program.now) rows g params.now margins.now
        → AreFilled (plain program.now) rows g params.now [] arrays.old
        → AreFilled (plain program.now) rows g params.now (placing_order (plain program.now)) arrays.new }
{
    for tensor in plan.order.as_slice() {
        let at = *tensor as usize;
        fill_tensor(
            alloc,
            program,
            rows,
            plan,
            params,
            &margins[at],
            arrays,
            *tensor,
        );
    }
}

// Runs all iterations over the arrays that the first one begins with.
fn run_all(
    alloc: Global,
    program: &Program,
    rows: u64,
    plan: &Plan,
    inputs: &[Items<i128>],
    params: &[i128],
    arrays: &mut [Items<i128>],
) -> Result<(), NoMemory>
    requires plan { IsPlan (plain program.now) rows plan.now }
    requires small { cells_at (plain program.now) rows ≤ most_cells }
    requires inputs { HasArrays (cells_at (plain program.now) rows) (input_types (plain program.now).tensors)
        inputs.now }
    requires params { HasValues (place_types (plain program.now).params) params.now }
    requires begun { AreFilled (plain program.now) rows (run_of (plain program.now) rows params.now inputs.now 0)
        params.now [] arrays.old }
    ensures { OnOk result (AreFilled (plain program.now) rows
        (run_of (plain program.now) rows params.now inputs.now ((plain program.now).iterate - 1)) params.now
        (placing_order (plain program.now)) arrays.new) }
{
    let order = plan.order.as_slice();
    let outputs = plan.outputs.as_slice();
    let margins = first_margins(alloc, program, order)?;
    fill_all(alloc, program, rows, plan, params, &margins, arrays);
    let mut last = margins;
    for done in 0..program.parts().iterate - 1 {
        exchange(outputs, arrays);
        last = next_margins(alloc, program, order, outputs, &last)?;
        fill_all(alloc, program, rows, plan, params, &last, arrays);
    }
    Ok(())
}

/// The arrays of all tensors in the last iteration.
pub(crate) fn last_arrays(
    alloc: Global,
    program: &Program,
    rows: u64,
    plan: &Plan,
    inputs: &[Items<i128>],
    params: &[i128],
) -> Result<Vec<Items<i128>>, NoMemory>
    requires plan { IsPlan (plain program.now) rows plan.now }
    requires small { cells_at (plain program.now) rows ≤ most_cells }
    requires inputs { HasArrays (cells_at (plain program.now) rows) (input_types (plain program.now).tensors)
        inputs.now }
    requires params { HasValues (place_types (plain program.now).params) params.now }
    ensures { IfOk result (λ arrays. AreFilled (plain program.now) rows
        (run_of (plain program.now) rows params.now inputs.now ((plain program.now).iterate - 1)) params.now
        (placing_order (plain program.now)) arrays.items) }
{
    let cells = size(plan.extents.as_slice()) as usize;
    let mut arrays = first_arrays(alloc, inputs, program.parts().tensors.len() as u32, cells)?;
    run_all(alloc, program, rows, plan, inputs, params, &mut arrays)?;
    Ok(arrays)
}
