ghost use Rattle.std.specs.Prelude.{◌≡◌, ◌+◌, ◌<◌, ◌^◌, [], ◌∷◌, ◌++◌, length, map, slice_index_or, IfOk, OnOk, if◌then◌else◌};
ghost use Rattle.soda_ir.specs.Counts.{is_output_role};
ghost use Rattle.soda_ir.specs.Program.{outputs_from, outputs_of, plain, plain_tensor};

use crate::NoMemory;
use soda_ir::{Parts, Tensor};
use std::alloc::Global;

// Adds the number of a tensor that is an output.
fn add_output(numbers: &mut Vec<u32>, tensor: &Tensor, number: u32) -> Result<(), NoMemory>
    ensures { OnOk result (numbers.new.items
        ≡ numbers.old.items ++ (if is_output_role tensor.now.role then number ∷ [] else [])) }
{
    if tensor.role.is_output() {
        numbers.push(number)?;
    }
    Ok(())
}

/// The numbers of the outputs, in order. The only error is want of memory.
pub fn output_numbers(alloc: Global, parts: &Parts) -> Result<Vec<u32>, NoMemory>
    requires { length parts.now.tensors < 2 ^ 32 }
    ensures { IfOk result (λ numbers. numbers.items ≡ outputs_of (plain parts.now)) }
{
    let mut numbers = Vec::new(alloc);
    let tensors = parts.tensors.as_slice();
    for number in 0..tensors.len() {
        add_output(&mut numbers, &tensors[number], number as u32)?;
    }
    Ok(numbers)
}

// The number of an output by its place among these tensors, of which the first has this number; 0 past the last output.
fn nth_output(tensors: &[Tensor], first: u32, place: u32) -> u32
    requires { first + length tensors.now < 2 ^ 32 }
    ensures { result ≡ slice_index_or (outputs_from first (map plain_tensor tensors.now)) place 0 }
{
    match tensors {
        [] => 0,
        [tensor, rest @ ..] => {
            if !tensor.role.is_output() {
                nth_output(rest, first + 1, place)
            } else if place == 0 {
                first
            } else {
                nth_output(rest, first + 1, place - 1)
            }
        }
    }
}

/// The number of an output by its place among the outputs, and 0 past the last.
pub(crate) fn output_at(parts: &Parts, place: u32) -> u32
    requires { length parts.now.tensors < 2 ^ 32 }
    ensures { result ≡ slice_index_or (outputs_of (plain parts.now)) place 0 }
{
    nth_output(parts.tensors.as_slice(), 0, place)
}
