ghost use Rattle.std.specs.Prelude.{◌≡◌, ◌^◌, drop, min, slice_index_or, IfOk};
ghost use Rattle.soda_ir.specs.Points.{size};
ghost use Rattle.soda_ir.specs.Program.{extents_at, plain};
ghost use Rattle.soda_eval.specs.Runs.{cells_at};

use crate::NoMemory;
use soda_ir::{Parts, Program};
use sqlite_items::Items;
use std::alloc::Global;

// No count matters past this one.
const MOST: u128 = 1 << 64;

/// The first number, and 0 where there is none.
pub(crate) fn first_of(numbers: &[u64]) -> u64
    ensures { result ≡ slice_index_or numbers.now 0 0 }
{
    match numbers {
        [] => 0,
        [n, ..] => *n,
    }
}

/// All but the first number.
pub(crate) fn rest_of(numbers: &[u64]) -> &[u64]
    ensures { result.now ≡ drop 1 numbers.now }
{
    if numbers.is_empty() {
        numbers
    } else {
        &numbers[1..]
    }
}

/// How many cells an array of these extents has, and 2^64 where there are more.
pub(crate) fn size(extents: &[u64]) -> u128
    ensures { result ≡ min (size extents.now) (2 ^ 64) }
{
    match extents {
        [] => 1,
        [n, rest @ ..] => (*n as u128 * size(rest)).min(MOST),
    }
}

/// All extents of an array of so many rows.
pub(crate) fn all_extents(alloc: Global, parts: &Parts, rows: u64) -> Result<Items<u64>, NoMemory>
    ensures { IfOk result (λ extents. extents ≡ extents_at (plain parts.now) rows) }
{
    let mut extents = Items::from_slice(alloc, parts.extents.as_slice())?;
    extents.push(rows)?;
    Ok(extents)
}

/// How many cells an array of so many rows has.
pub fn array_cells(program: &Program, rows: u64) -> u128
    ensures { result ≡ cells_at (plain program.now) rows }
{
    size(program.parts().extents.as_slice()) * rows as u128
}
