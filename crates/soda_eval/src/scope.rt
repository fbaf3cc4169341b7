ghost use Rattle.std.specs.Prelude.{◌≡◌, ◌+◌, ◌^◌, ◌<◌, ◌≤◌, length, min, pos, slice_index_or, take};
ghost use Rattle.soda_words.specs.IntType.{int32};
ghost use Rattle.soda_ir.specs.Program.{plain};
ghost use Rattle.soda_eval.specs.Runs.{scope_of};

use soda_ir::{Param, Parts, value_count};
use soda_words::Ty;

/// The type of a tensor that is there.
pub fn tensor_type(parts: &Parts, tensor: u32) -> Ty
    requires { tensor < length parts.now.tensors }
    ensures { result ≡ slice_index_or (scope_of (plain parts.now)).tensors tensor int32 }
{
    parts.tensors.as_slice()[tensor as usize].ty
}

/// The type of a param.
pub(crate) fn param_type(parts: &Parts, param: u32) -> Ty
    requires { param < length parts.now.params }
    ensures { result ≡ slice_index_or (scope_of (plain parts.now)).params param int32 }
{
    parts.params.as_slice()[param as usize].ty
}

// The params before one.
fn first_params(params: &[Param], number: usize) -> &[Param]
    requires { number ≤ length params.now }
    ensures { result.now ≡ take number params.now }
{
    &params[..number]
}

// Where a param's values begin, among the values of all params.
#[tactic(auto, using(crate::proofs::Starts::starts_behind))]
fn start_of(parts: &Parts, param: u32) -> u128
    requires { param < length parts.now.params }
    ensures { result ≡ min (slice_index_or (scope_of (plain parts.now)).starts param 0) (2 ^ 64) }
{
    value_count(first_params(parts.params.as_slice(), param as usize))
}

/// The value of a param at a place, among the values of all params.
pub(crate) fn param_value(parts: &Parts, values: &[i128], param: u32, place: u32) -> i128
    requires there { param < length parts.now.params }
    requires within { slice_index_or (scope_of (plain parts.now)).starts param 0 + place < length values.now }
    ensures { result ≡ slice_index_or values.now (slice_index_or (scope_of (plain parts.now)).starts param 0 + place)
        (pos 0) }
{
    let start = start_of(parts, param);
    let many = values.len();
    let at = start + place as u128;
    if at < many as u128 {
        values[at as usize]
    } else {
        unreachable!()
    }
}
