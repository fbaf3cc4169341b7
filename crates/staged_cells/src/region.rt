ghost use Rattle.std.specs.Prelude.{◌≡◌, ℕ, ◌-◌, ◌<◌, ◌≤◌, ◌++◌, ◌∷◌, [], List, Some, ℤ, length, nat_lt, slice_get};
ghost use Rattle.soda_words.specs.Limits.{most_cells};
ghost use Rattle.soda_ir.specs.Points.{size};
ghost use Rattle.soda_ir.specs.Program.{extents_at, plain};
ghost use Rattle.soda_eval.specs.Points.{point};
ghost use Rattle.soda_eval.specs.Runs.{cells_at};
ghost use Rattle.time_stages.specs.declared.staging.StagedTensor.{StagedTensor};
ghost use Rattle.time_stages.specs.Margins.{keeps_away};
ghost use Rattle.time_stages.specs.Staged.{staged, staged_tensors};
ghost use Rattle.staged_cells.specs.Cells.{is_inside};
ghost use Rattle.staged_cells.specs.pieces.Within.{is_within};

use soda_ir::{Parts, Program};
use time_stages::Staged;

// Whether a number below an extent keeps the margins of its two ends.
fn is_within(extent: u64, low: u64, high: u64, number: u64) -> bool
    requires { number < extent }
    ensures { result ≡ is_within extent low high number }
{
    low <= number && high < extent - number
}

// Whether there are numbers in the last dimension, and one keeps the margins.
fn keeps_last(rows: u64, low: &[u64], high: &[u64], place: u64) -> bool
    ensures { result ≡ keeps_away (rows ∷ []) low.now high.now (point (rows ∷ []) place) }
{
    match low {
        [l] => match high {
            [h] => rows != 0 && is_within(rows, *l, *h, place % rows),
            _ => false,
        },
        _ => false,
    }
}

/// Whether the point of a cell number keeps the margins. The extents are all but the last.
pub(crate) fn keeps(extents: &[u64], rows: u64, low: &[u64], high: &[u64], place: u64) -> bool
    ensures { result ≡ keeps_away (extents.now ++ rows ∷ []) low.now high.now
        (point (extents.now ++ rows ∷ []) place) }
{
    match extents {
        [] => keeps_last(rows, low, high, place),
        [n, ns @ ..] => match low {
            [] => false,
            [l, ls @ ..] => match high {
                [] => false,
                [h, hs @ ..] => {
                    *n != 0
                        && is_within(*n, *l, *h, place % *n)
                        && keeps(ns, rows, ls, hs, place / *n)
                }
            },
        },
    }
}

/// Whether there is a cell of this number. The extents are all but the last.
pub(crate) fn is_cell(extents: &[u64], rows: u64, place: u64) -> bool
    ensures { result ≡ nat_lt place (size (extents.now ++ rows ∷ [])) }
{
    match extents {
        [] => place < rows,
        [n, ns @ ..] => *n != 0 && is_cell(ns, rows, place / *n),
    }
}

/// Whether a cell keeps the margins of a staged tensor.
pub(crate) fn is_kept(parts: &Parts, staging: &Staged, rows: u64, tensor: u32, index: u64) -> bool
    requires staging { staging.now ≡ staged (plain parts.now) }
    requires tensor { tensor < length (staged_tensors (plain parts.now)) }
    ensures { (s : StagedTensor) → slice_get (staged_tensors (plain parts.now)) tensor ≡ Some s
        → result ≡ keeps_away (extents_at (plain parts.now) rows) s.low s.high
        (point (extents_at (plain parts.now) rows) index) }
{
    let staged = &staging.tensors.as_slice()[tensor as usize];
    keeps(
        parts.extents.as_slice(),
        rows,
        staged.low.as_slice(),
        staged.high.as_slice(),
        index,
    )
}

/// Whether a cell is in the region of a staged tensor. The staged program is that of the program, an array has at most
/// `most_cells` cells, and the tensor and the cell number are there.
pub fn in_region(program: &Program, staging: &Staged, rows: u64, tensor: u32, index: u64) -> bool
    requires staging { staging.now ≡ staged (plain program.now) }
    requires small { cells_at (plain program.now) rows ≤ most_cells }
    requires tensor { tensor < length (staged_tensors (plain program.now)) }
    requires index { index < cells_at (plain program.now) rows }
    ensures margins { (s : StagedTensor) → slice_get (staged_tensors (plain program.now)) tensor ≡ Some s
        → result ≡ keeps_away (extents_at (plain program.now) rows) s.low s.high
        (point (extents_at (plain program.now) rows) index) }
    ensures region { (s : StagedTensor) (params : List ℤ) (inputs : List (List ℤ))
        → slice_get (staged_tensors (plain program.now)) tensor ≡ Some s
        → result ≡ is_inside (plain program.now) rows params inputs s
        (point (extents_at (plain program.now) rows) index) }
{
    is_kept(program.parts(), staging, rows, tensor, index)
}
