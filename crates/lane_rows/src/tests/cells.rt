//! Arrays of cells, and what `eval` reads of them.

ghost use Rattle.std.specs.Prelude.{◌≡◌, ◌+ℤ◌, ◌+◌, ℕ, ℤ, pos, true, unsigned_abs, List, slice_index_or};
ghost use Rattle.soda_words.specs.IntType.{int32};
ghost use Rattle.int_types.specs.Ranges.{wrapped};
ghost use Rattle.soda_ir.specs.Program.{plain};
ghost use Rattle.soda_ir.specs.Tree.{formula_of};
ghost use Rattle.soda_ir.specs.Uses.{each_use, is_good_cell, is_good_place};
ghost use Rattle.soda_eval.specs.Runs.{HasValues, place_types, scope_of};
ghost use Rattle.lane_rows.specs.Cells.{cell_at};

use super::programs::{INPUTS, Random};
use int_types::{Ty, int32, wrap};
use soda_eval::{Cells, eval};
use soda_ir::{Expr, Offset, Program};
use sqlite_items::Items;
use std::alloc::{AllocError, Global};

/// The number of the tensor that has a formula.
pub(crate) const OUTPUT: u32 = INPUTS as u32;

/// The type of a tensor.
pub(crate) fn tensor_type(program: &Program, tensor: u32) -> Ty
    ensures { result ≡ slice_index_or (scope_of (plain program.now)).tensors tensor int32 }
{
    match program.parts().tensors.get(tensor as usize) {
        Some(tensor) => tensor.ty,
        None => int32(),
    }
}

// A number of the type, often near an end of it or near 0.
fn number(random: &mut Random, ty: Ty) -> i128 {
    let near = (random.next() % 5) as i128 - 2;
    let wide = random.next() as i128;
    let half = 1i128 << (ty.bits() - 1);
    match random.next() % 4 {
        0 => wrap(ty, wide),
        1 => wrap(ty, near),
        2 => wrap(ty, half + near),
        _ => wrap(ty, wide % 1000),
    }
}

/// So many cells for each input.
pub(crate) fn make_arrays(
    alloc: Global,
    random: &mut Random,
    program: &Program,
    count: usize,
) -> Result<Vec<Items<i128>>, AllocError> {
    let mut arrays = Vec::new(alloc);
    for tensor in 0..OUTPUT {
        let ty = tensor_type(program, tensor);
        let mut cells = Items::new(alloc);
        for _ in 0..count {
            cells.push(number(random, ty))?;
        }
        arrays.push(cells)?;
    }
    Ok(arrays)
}

// The first component of an offset.
fn first(offset: &[i64]) -> i64
    ensures { result ≡ slice_index_or offset.now 0 (pos 0) }
{
    match offset {
        [] => 0,
        [first, ..] => *first,
    }
}

// How far from an array's first cell.
fn index_of(lane: usize, component: i64) -> u128
    ensures { result ≡ unsigned_abs (component +ℤ pos (lane + 2)) }
{
    (component as i128 + (lane as i128 + 2)).unsigned_abs()
}

fn cell_of(array: &[i128], index: u128) -> i128
    ensures { result ≡ slice_index_or array.now index (pos 0) }
{
    if index < array.len() as u128 {
        array[index as usize]
    } else {
        0
    }
}

/// The cell of a tensor in a lane.
pub(crate) fn raw(arrays: &[Items<i128>], lane: usize, tensor: u32, offset: &[i64]) -> i128
    ensures { result ≡ cell_at arrays.now lane tensor offset.now }
{
    if (tensor as usize) < arrays.len() {
        let array = arrays[tensor as usize].as_slice();
        cell_of(array, index_of(lane, first(offset)))
    } else {
        0
    }
}

// The cells that a lane reads.
#[derive(Clone, Copy)]
struct Lane<'a> {
    program: &'a Program,
    arrays: &'a [Items<i128>],
    lane: usize,
}

impl<'a> Cells for Lane<'a> {
    ghost value = { λ s t o. wrapped (slice_index_or (scope_of (plain s.program.now)).tensors t int32)
        (cell_at s.arrays.now s.lane t o) };

    fn cell(&self, tensor: u32, offset: &Offset) -> i128 {
        let cell = raw(self.arrays, self.lane, tensor, offset.as_slice());
        wrap(tensor_type(self.program, tensor), cell)
    }
}

// The formula's value in a lane.
fn value_in(
    program: &Program,
    expr: &Expr,
    params: &[i128],
    arrays: &[Items<i128>],
    lane: usize,
) -> i128
    requires uses { each_use (is_good_cell (plain program.now)) (is_good_place (plain program.now))
        (formula_of expr.now) ≡ true }
    requires params { HasValues (place_types (plain program.now).params) params.now }
{
    let cells = Lane {
        program,
        arrays,
        lane,
    };
    eval(program, expr, &cells, params)
}

/// The formula's value in each of so many lanes.
pub(crate) fn values_of(
    alloc: Global,
    program: &Program,
    params: &[i128],
    arrays: &[Items<i128>],
    lanes: usize,
) -> Result<Vec<i128>, AllocError>
    requires { HasValues (place_types (plain program.now).params) params.now }
{
    let mut values = Vec::new(alloc);
    for lane in 0..lanes {
        if let Some(expr) = program.parts().formula(OUTPUT) {
            values.push(value_in(program, expr, params, arrays, lane))?;
        }
    }
    Ok(values)
}
