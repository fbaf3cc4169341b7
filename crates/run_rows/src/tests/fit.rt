//! Runs a program text over given arrays, where these and the params are such that it can be run.

ghost use Rattle.std.specs.Prelude.{◌≡◌, ◌+◌, ◌++◌, ◌^◌, true, All, List, length, map, min, replicate, IfSome};
ghost use Rattle.soda_words.specs.IntType.{IntType};
ghost use Rattle.int_types.specs.Ranges.{InRange};
ghost use Rattle.soda_ir.specs.Program.{input_types, plain_param, plain_tensor};
ghost use Rattle.soda_eval.specs.Runs.{HasArrays, HasValues, IsArray, place_types};

use int_types::in_range;
use soda_ir::{Param, Program, Role, Tensor, value_count};
use soda_parse::{ParseFail, parse};
use soda_run::{array_cells, plain_run};
use soda_words::{MOST_CELLS, MOST_TEXT, MOST_VALUES, Ty};
use sqlite_items::Items;
use std::alloc::{AllocError, Global};

// Whether each cell is in the type's range.
fn are_in_range(ty: Ty, cells: &[i128]) -> bool
    ensures { result ≡ true → All (λ v. InRange ty v) cells.now }
{
    match cells {
        [] => true,
        [cell, rest @ ..] => in_range(ty, *cell) && are_in_range(ty, rest),
    }
}

// Whether these are so many cells of the type.
fn is_array(ty: Ty, count: u64, cells: &[i128]) -> bool
    ensures { result ≡ true → IsArray ty count cells.now }
{
    cells.len() as u64 == count && are_in_range(ty, cells)
}

// Whether there is one array of so many cells for each input.
fn are_arrays(tensors: &[Tensor], count: u64, arrays: &[Items<i128>]) -> bool
    ensures { result ≡ true → HasArrays count (input_types (map plain_tensor tensors.now)) arrays.now }
{
    match tensors {
        [] => arrays.is_empty(),
        [tensor, rest @ ..] => match tensor.role {
            Role::Input => match arrays {
                [] => false,
                [array, others @ ..] => {
                    is_array(tensor.ty, count, array.as_slice()) && are_arrays(rest, count, others)
                }
            },
            Role::Local | Role::Output => are_arrays(rest, count, arrays),
        },
    }
}

// What follows so many values of a type.
fn behind_values(ty: Ty, count: u64, values: &[i128]) -> Option<&[i128]>
    ensures { IfSome result (λ rest. (types : List IntType) → HasValues types rest.now
        → HasValues (replicate count ty ++ types) values.now) }
{
    if count == 0 {
        return Some(values);
    }
    match values {
        [] => None,
        [value, rest @ ..] => {
            if in_range(ty, *value) {
                behind_values(ty, count - 1, rest)
            } else {
                None
            }
        }
    }
}

// Whether these are the values of all params, in order.
fn are_values(params: &[Param], values: &[i128]) -> bool
    ensures { result ≡ true → HasValues (place_types (map plain_param params.now)) values.now }
{
    match params {
        [] => values.is_empty(),
        [param, rest @ ..] => {
            let count = value_count(&params[..1]);
            if count > MOST_VALUES as u128 {
                return false;
            }
            match behind_values(param.ty, count as u64, values) {
                None => false,
                Some(after) => are_values(rest, after),
            }
        }
    }
}

// The output arrays of an accepted program, and None where what is given doesn't fit it.
fn arrays_of(
    alloc: Global,
    program: &Program,
    rows: u64,
    inputs: &[Items<i128>],
    params: &[i128],
) -> Result<Option<Vec<Items<i128>>>, AllocError> {
    let cells = array_cells(program, rows);
    if cells > MOST_CELLS as u128 {
        return Ok(None);
    }
    let parts = program.parts();
    if !are_arrays(parts.tensors.as_slice(), cells as u64, inputs)
        || !are_values(parts.params.as_slice(), params)
    {
        return Ok(None);
    }
    match plain_run(alloc, program, rows, inputs, params) {
        Ok(arrays) => Ok(Some(arrays)),
        Err(refused) => Err(refused),
    }
}

/// The output arrays of a program text over these input arrays, and None where it is refused or what is given doesn't
/// fit it.
pub(crate) fn run(
    alloc: Global,
    text: &[u8],
    rows: u64,
    inputs: &[Items<i128>],
    params: &[i128],
) -> Result<Option<Vec<Items<i128>>>, AllocError> {
    match parse(alloc, text, MOST_TEXT) {
        Ok(program) => arrays_of(alloc, &program, rows, inputs, params),
        Err(ParseFail::Refused(_)) => Ok(None),
        Err(ParseFail::Memory) => Err(AllocError),
    }
}
