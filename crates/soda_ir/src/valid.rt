ghost use Rattle.std.specs.Prelude.{◌≡◌, ◌<◌, ◌≤◌, ◌&&◌, ◌==◌, ◌↔◌, [], ◌∷◌, ◌++◌, suc, not, nat_le, map, length, IfOk, OnOk, IsTrue, if◌then◌else◌};
ghost use Rattle.std.specs.List.{list_all, list_any};
ghost use Rattle.soda_words.specs.IntType.{IntType};
ghost use Rattle.soda_words.specs.Limits.{least_burst, most_burst, most_dims, most_iterate, most_tensors, most_tile, most_unroll};
ghost use Rattle.soda_ir.specs.Counts.{is_input_role, is_output_role};
ghost use Rattle.soda_ir.specs.Points.{size};
ghost use Rattle.soda_ir.specs.Program.{input_types, plain, plain_param, plain_tensor};
ghost use Rattle.soda_ir.specs.Valid.{
  cell_size,
  fills_burst,
  has_formula_if_no_input,
  has_good_uses,
  has_inputs_first,
  is_good_param,
  is_small,
  output_types,
};

use crate::NoMemory;
use crate::params::product;
use crate::program::{Param, Parts, Role, Tensor};
use crate::uses::{has_formula_if_no_input, has_good_uses, is_small};
use soda_words::{
    LEAST_BURST, MOST_BURST, MOST_DIMS, MOST_ITERATE, MOST_SIZES, MOST_TENSORS, MOST_TILE,
    MOST_UNROLL, Ty, cell_bytes,
};
use std::alloc::Global;

/// Whether the unroll factor, the number of iterations, the burst width, and how many dimensions and tensors there are
/// keep their limits.
pub(crate) fn has_good_numbers(parts: &Parts) -> bool
    ensures { result ≡ ((nat_le 1 parts.now.unroll && nat_le parts.now.unroll most_unroll)
        && (nat_le 1 parts.now.iterate && nat_le parts.now.iterate most_iterate)
        && (nat_le least_burst parts.now.burst && nat_le parts.now.burst most_burst)
        && (nat_le (suc (length parts.now.extents)) most_dims && nat_le (length parts.now.tensors) most_tensors)) }
{
    let unroll = 1 <= parts.unroll && parts.unroll <= MOST_UNROLL;
    let iterate = 1 <= parts.iterate && parts.iterate <= MOST_ITERATE;
    let burst = LEAST_BURST <= parts.burst && parts.burst <= MOST_BURST;
    let few = parts.extents.len() < MOST_DIMS && parts.tensors.len() <= MOST_TENSORS;
    unroll & iterate & burst & few
}

/// Whether no extent is 0, and their product is within its limit.
pub(crate) fn has_good_tile(extents: &[u64]) -> bool
    ensures { result ≡ (list_all (λ n. not (n == 0)) extents.now && nat_le (size extents.now) most_tile) }
{
    has_no_zero(extents) && product(extents) <= MOST_TILE as u128
}

fn has_no_zero(numbers: &[u64]) -> bool
    ensures { result ≡ list_all (λ n. not (n == 0)) numbers.now }
{
    for n in numbers {
        if *n == 0 {
            return false;
        }
    }
    true
}

fn is_good_param(param: &Param) -> bool
    ensures { result ≡ is_good_param (plain_param param.now) }
{
    param.sizes.len() <= MOST_SIZES && has_no_zero(param.sizes.as_slice())
}

/// Whether no param has too many sizes or one that is 0.
pub(crate) fn has_good_params(params: &[Param]) -> bool
    ensures { result ≡ list_all (λ q. is_good_param (plain_param q)) params.now }
{
    for param in params {
        if !is_good_param(param) {
            return false;
        }
    }
    true
}

/// Whether no input stands behind a local or output.
pub(crate) fn has_inputs_first(tensors: &[Tensor]) -> bool
    ensures { result ≡ has_inputs_first (map plain_tensor tensors.now) }
{
    match tensors {
        [] => true,
        [tensor, rest @ ..] => {
            if tensor.role.is_input() {
                has_inputs_first(rest)
            } else {
                has_no_input(rest)
            }
        }
    }
}

fn has_no_input(tensors: &[Tensor]) -> bool
    ensures { result ≡ list_all (λ u. not (is_input_role u.role)) tensors.now }
{
    for tensor in tensors {
        if tensor.role.is_input() {
            return false;
        }
    }
    true
}

fn cell_size(ty: Ty) -> u64
    ensures value { result ≡ cell_size ty }
    ensures some { 0 < result }
    ensures most { result ≤ 8 }
{
    let _bits = ty.bits();
    cell_bytes(ty) as u64
}

fn fills_burst(width: u64, tensor: &Tensor) -> bool
    ensures { result ≡ fills_burst width (plain_tensor tensor.now) }
{
    match tensor.role {
        Role::Local => true,
        Role::Input | Role::Output => width % (8 * cell_size(tensor.ty)) == 0,
    }
}

/// Whether an input is there.
pub(crate) fn has_input(tensors: &[Tensor]) -> bool
    ensures { result ≡ list_any (λ t. is_input_role t.role) tensors.now }
{
    for tensor in tensors {
        if tensor.role.is_input() {
            return true;
        }
    }
    false
}

/// Whether an output is there.
pub(crate) fn has_output(tensors: &[Tensor]) -> bool
    ensures { result ≡ list_any (λ t. is_output_role t.role) tensors.now }
{
    for tensor in tensors {
        if tensor.role.is_output() {
            return true;
        }
    }
    false
}

/// Whether whole cells of each input and output fill a burst.
pub fn fill_burst(width: u64, tensors: &[Tensor]) -> bool
    ensures { result ≡ list_all (λ t. fills_burst width (plain_tensor t)) tensors.now }
{
    for tensor in tensors {
        if !fills_burst(width, tensor) {
            return false;
        }
    }
    true
}

/// Whether each tensor has a formula exactly where it is no input, and each formula names what is there, at offsets
/// that may be, and keeps the size rules.
pub(crate) fn have_good_formulas(parts: &Parts) -> bool
    ensures { result ≡ list_all (λ t. has_formula_if_no_input (plain_tensor t)
        && has_good_uses (plain parts.now) (plain_tensor t)
        && is_small (plain parts.now) (plain_tensor t)) parts.now.tensors }
{
    for tensor in parts.tensors.as_slice() {
        if !has_formula_if_no_input(tensor)
            || !has_good_uses(parts, tensor)
            || !is_small(parts, tensor)
        {
            return false;
        }
    }
    true
}

// Adds a type, if it is wanted.
fn push_if(types: &mut Vec<Ty>, wanted: bool, ty: Ty) -> Result<(), NoMemory>
    ensures { OnOk result (types.new.items ≡ types.old.items ++ (if wanted then ty ∷ [] else [])) }
{
    if wanted {
        types.push(ty)?;
    }
    Ok(())
}

/// The types of the inputs, in order.
pub fn types_in(alloc: Global, tensors: &[Tensor]) -> Result<Vec<Ty>, NoMemory>
    ensures { IfOk result (λ types. types.items ≡ input_types (map plain_tensor tensors.now)) }
{
    let mut types = Vec::new(alloc);
    for tensor in tensors {
        push_if(&mut types, tensor.role.is_input(), tensor.ty)?;
    }
    Ok(types)
}

/// The types of the outputs, in order.
pub fn types_out(alloc: Global, tensors: &[Tensor]) -> Result<Vec<Ty>, NoMemory>
    ensures { IfOk result (λ types. types.items ≡ output_types (map plain_tensor tensors.now)) }
{
    let mut types = Vec::new(alloc);
    for tensor in tensors {
        push_if(&mut types, tensor.role.is_output(), tensor.ty)?;
    }
    Ok(types)
}

/// Whether there are as many inputs as outputs, of equal types in order.
pub fn outputs_fit(alloc: Global, tensors: &[Tensor]) -> Result<bool, NoMemory>
    ensures { IfOk result (λ fit. IsTrue fit ↔ (input_types (map plain_tensor tensors.now)
        ≡ output_types (map plain_tensor tensors.now))) }
{
    let inputs = types_in(alloc, tensors)?;
    let outputs = types_out(alloc, tensors)?;
    Ok(inputs.as_slice() == outputs.as_slice())
}
