ghost use Rattle.std.specs.Prelude.{◌≡◌, ◌≤◌, ◌<◌};
ghost use Rattle.soda_words.specs.Limits.{most_cells};
ghost use Rattle.soda_ir.specs.Program.{plain};
ghost use Rattle.soda_eval.specs.Runs.{cells_at};
ghost use Rattle.command_words.specs.Orders.{asked};
ghost use Rattle.sodac_cli.specs.Machine.Steps.{layout_of};
ghost use Rattle.sodac_cli.specs.Work.{form_of, rows_of, run_of};

use array_bytes::Form;
use command_words::Order;
use job_arrays::Layout;
use soda_ir::Program;
use soda_run::array_cells;

// How many cells of a line: the first extent, and one where there is but one dimension.
fn run_of(program: &Program) -> u64
    ensures value { result ≡ run_of (plain program.now) }
    ensures some { 0 < result }
{
    match program.parts().extents.as_slice() {
        [] => 1,
        [first, ..] => *first,
    }
}

// The form of all arrays.
fn form_of(order: &Order<'_>) -> Form
    ensures { result ≡ form_of (asked order.now) }
{
    if order.raw { Form::Raw } else { Form::Text }
}

/// How the arrays of a job stand in their files.
pub(crate) fn layout_of(order: &Order<'_>, program: &Program) -> Layout
    requires { cells_at (plain program.now) (rows_of (asked order.now)) ≤ most_cells }
    ensures layout { result ≡ layout_of (asked order.now) (plain program.now) }
    ensures some { 0 < result.run }
{
    Layout {
        form: form_of(order),
        burst: program.parts().burst,
        cells: array_cells(program, order.rows.unwrap_or(0)) as u64,
        run: run_of(program),
    }
}
