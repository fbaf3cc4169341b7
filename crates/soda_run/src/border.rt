ghost use Rattle.std.specs.Prelude.{◌≡◌, ◌+◌, ◌<◌, ◌^◌, [], None, length, map, slice_index_or};
ghost use Rattle.soda_ir.specs.Program.{plain, plain_tensor};
ghost use Rattle.soda_eval.specs.Runs.{borders_from, borders_of};
ghost use Rattle.soda_run.specs.pieces.Filled.{outside_of};

use soda_ir::{Parts, Tensor};
use sqlite_items::Items;

// The number among the outputs of the tensor at a place, if it is an output. So many outputs stand before these
// tensors.
fn output_number(tensors: &[Tensor], before: u32, place: u32) -> Option<u32>
    requires { before + length tensors.now < 2 ^ 32 }
    ensures { result ≡ slice_index_or (borders_from before (map plain_tensor tensors.now)) place None }
{
    match tensors {
        [] => None,
        [tensor, rest @ ..] => {
            let is_output = tensor.role.is_output();
            if place == 0 {
                if is_output { Some(before) } else { None }
            } else if is_output {
                output_number(rest, before + 1, place - 1)
            } else {
                output_number(rest, before, place - 1)
            }
        }
    }
}

/// The input whose cells a tensor has outside its region, if any.
pub(crate) fn border_of(parts: &Parts, tensor: u32) -> Option<u32>
    requires { length parts.now.tensors < 2 ^ 32 }
    ensures { result ≡ slice_index_or (borders_of (plain parts.now)) tensor None }
{
    if parts.is_preserved() {
        output_number(parts.tensors.as_slice(), 0, tensor)
    } else {
        None
    }
}

/// The array whose cells a tensor has outside its region, and none where these are 0.
pub(crate) fn outside<'a>(arrays: &'a [Items<i128>], border: Option<u32>) -> &'a [i128]
    ensures { result.now ≡ elim border [ None ↦ [] | Some j ↦ slice_index_or arrays.now j [] ] }
{
    match border {
        None => &[],
        Some(input) => match arrays.get(input as usize) {
            None => &[],
            Some(array) => array.as_slice(),
        },
    }
}
