ghost use Rattle.std.specs.Prelude.{[], ◌≡◌, ◌<◌, ◌≤◌, ℕ, Some, pos, true, IfOk, slice_index_or};
ghost use Rattle.soda_words.specs.IntType.{int32};
ghost use Rattle.soda_words.specs.Limits.{most_cells};
ghost use Rattle.soda_ir.specs.Counts.{formula_in};
ghost use Rattle.soda_ir.specs.Formula.{Formula, by_formula, every};
ghost use Rattle.soda_ir.specs.Program.{extents_at, input_types, plain};
ghost use Rattle.soda_eval.specs.Arrays.{Each, array_cell};
ghost use Rattle.soda_eval.specs.Points.{in_box, moved, point};
ghost use Rattle.soda_eval.specs.Runs.{HasArrays, HasValues, IsArray, cells_at, defined_arrays, place_types, scope_of};
ghost use Rattle.soda_eval.specs.Values.{valued};

use crate::NoMemory;
use crate::exchange::take_all;
use crate::iterations::{last_arrays, make_plan};
use crate::spot::Spot;
use soda_eval::eval;
use soda_ir::Program;
use sqlite_items::Items;
use std::alloc::Global;

/// The formula's value at a place over one iteration's arrays, before it is wrapped to the tensor's type, and 0 for an
/// input. An array has at most `most_cells` cells; all reads from the place lie in the box; `arrays` has a whole array,
/// in range, for each tensor that is read; and `params` has the values of all params in order, in range.
pub fn plain_cell(
    program: &Program,
    rows: u64,
    arrays: &[Items<i128>],
    params: &[i128],
    tensor: u32,
    place: u64,
) -> i128
    requires small { cells_at (plain program.now) rows ≤ most_cells }
    requires there { place < cells_at (plain program.now) rows }
    requires inside { (f : Formula) → formula_in (plain program.now) tensor ≡ Some f
        → every (λ t o. in_box (extents_at (plain program.now) rows)
        (moved (point (extents_at (plain program.now) rows) place) o)) f ≡ true }
    requires arrays { (f : Formula) → formula_in (plain program.now) tensor ≡ Some f
        → Each (λ t o. IsArray (slice_index_or (scope_of (plain program.now)).tensors t int32)
        (cells_at (plain program.now) rows) (slice_index_or arrays.now t [])) f }
    requires params { HasValues (place_types (plain program.now).params) params.now }
    ensures { result ≡ by_formula (formula_in (plain program.now) tensor) (pos 0)
        (valued (scope_of (plain program.now))
        (λ t o. array_cell (extents_at (plain program.now) rows) (slice_index_or arrays.now t [])
        (moved (point (extents_at (plain program.now) rows) place) o)) params.now) }
{
    let parts = program.parts();
    let spot = Spot {
        extents: parts.extents.as_slice(),
        arrays,
        place,
    };
    match parts.formula(tensor) {
        Some(formula) => eval(program, formula, &spot, params),
        None => 0,
    }
}

/// The output arrays of the last iteration, each in the order of cell numbers. An array has at most `most_cells` cells,
/// there is one array of cells in range for each input, and `params` has the values of all params in order, in range.
///
/// It keeps an array for each tensor of one iteration, and no more.
pub fn plain_run(
    alloc: Global,
    program: &Program,
    rows: u64,
    inputs: &[Items<i128>],
    params: &[i128],
) -> Result<Vec<Items<i128>>, NoMemory>
    requires small { cells_at (plain program.now) rows ≤ most_cells }
    requires inputs { HasArrays (cells_at (plain program.now) rows) (input_types (plain program.now).tensors)
        inputs.now }
    requires params { HasValues (place_types (plain program.now).params) params.now }
    ensures { IfOk result (λ arrays. arrays.items ≡ defined_arrays (plain program.now) rows params.now inputs.now) }
{
    let plan = make_plan(alloc, program, rows)?;
    let arrays = last_arrays(alloc, program, rows, &plan, inputs, params)?;
    take_all(alloc, plan.outputs.as_slice(), arrays)
}
