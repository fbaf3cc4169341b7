ghost use Rattle.std.specs.Prelude.{◌≡◌, ◌++◌, [], ◌∷◌, true, map, IfOk, OnOk};
ghost use Rattle.soda_ir.specs.Program.{plain_param, plain_tensor};
ghost use Rattle.soda_ir.specs.Valid.{are_free_names, names_of};

use crate::NoMemory;
use crate::program::{Param, Tensor};
use soda_words::{NameTable, is_free_name};
use std::alloc::Global;

// Adds a name, and says whether all are still names that params and tensors may have, no two of them the same.
fn add_name<'a>(table: &mut NameTable<'a>, name: &'a [u8]) -> Result<bool, NoMemory>
    requires { are_free_names table.now ≡ true }
    ensures added { OnOk result (table.new ≡ table.old ++ name.now ∷ []) }
    ensures free { IfOk result (λ free. free ≡ are_free_names (table.old ++ name.now ∷ [])) }
{
    let is_new = table.add(name)?;
    Ok(is_free_name(name) && is_new)
}

// Adds the names of params, as long as all are such names, and says whether they are.
fn add_params<'a>(table: &mut NameTable<'a>, params: &'a [Param]) -> Result<bool, NoMemory>
    requires { are_free_names table.now ≡ true }
    ensures added { IfOk result (λ free. free ≡ true → table.new ≡ table.old
        ++ map (λ q. q.name) (map plain_param params.now)) }
    ensures free { IfOk result (λ free. free
        ≡ are_free_names (table.old ++ map (λ q. q.name) (map plain_param params.now))) }
{
    for param in params {
        let free = add_name(table, param.name.as_slice())?;
        if !free {
            return Ok(false);
        }
    }
    Ok(true)
}

// The same of tensors.
fn add_tensors<'a>(table: &mut NameTable<'a>, tensors: &'a [Tensor]) -> Result<bool, NoMemory>
    requires { are_free_names table.now ≡ true }
    ensures { IfOk result (λ free. free
        ≡ are_free_names (table.old ++ map (λ t. t.name) (map plain_tensor tensors.now))) }
{
    for tensor in tensors {
        let free = add_name(table, tensor.name.as_slice())?;
        if !free {
            return Ok(false);
        }
    }
    Ok(true)
}

/// Whether each name of a param or tensor is one that they may have, and no two are the same.
pub(crate) fn are_names_free(
    alloc: Global,
    params: &[Param],
    tensors: &[Tensor],
) -> Result<bool, NoMemory>
    ensures { IfOk result (λ free. free
        ≡ are_free_names (names_of (map plain_param params.now) (map plain_tensor tensors.now))) }
{
    let mut table = NameTable::new(alloc);
    if !add_params(&mut table, params)? {
        return Ok(false);
    }
    add_tensors(&mut table, tensors)
}
