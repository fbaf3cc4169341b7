ghost use Rattle.std.specs.Prelude.{◌≡◌, ◌<◌, ◌^◌, ℕ, Some, None, length, map, nat_eq, option_map, true, unwrap_or, IfOk, MatchOption};
ghost use Rattle.std.specs.HashMap.{get};
ghost use Rattle.soda_ir.specs.Program.{plain_tensor};
ghost use Rattle.soda_ir.specs.Tree.{formula_of};
ghost use Rattle.share_shape.specs.machine.Marks.{is_repeated};
ghost use Rattle.share_shape.specs.machine.Search.{first_passing, is_twice, site_passing};
ghost use Rattle.share_shape.specs.Compounds.{compounds_of, have_dims, site, sites_from};
ghost use Rattle.share_shape.specs.Procedure.{first_shared};

use crate::NoMemory;
use crate::hits::{first_twice, is_twice};
use crate::table::{candidate, counted};
use soda_ir::{Expr, Tensor};
use std::alloc::Global;
use std::collections::HashMap;

// The first compound of a tensor's formula that stands twice in the formulas of these tensors.
fn first_in<'a>(tensor: &'a Tensor, tensors: &[Tensor]) -> Option<&'a Expr>
    ensures { option_map (λ c. formula_of c.now) result
        ≡ first_passing (is_twice (map plain_tensor tensors.now)) (compounds_of (plain_tensor tensor.now)) }
{
    match &tensor.formula {
        Some(formula) => first_twice(formula, tensors),
        None => None,
    }
}

// The first compound that is shift-equal to another, and the number of the tensor in whose formula it stands: each
// compound in turn is compared to all.
fn plain_site(tensors: &[Tensor]) -> Option<(u32, &Expr)>
    requires { length tensors.now < 2 ^ 32 }
    ensures { MatchOption result (first_shared (sites_from 0 (map plain_tensor tensors.now)) ≡ None)
        (λ s. first_shared (sites_from 0 (map plain_tensor tensors.now)) ≡ Some (site s.0 (formula_of s.1.now))) }
{
    for (i, tensor) in tensors.iter().enumerate() {
        if let Some(compound) = first_in(tensor, tensors) {
            return Some((i as u32, compound));
        }
    }
    None
}

// The first compound of a tensor's formula whose mark was counted twice.
fn candidate_in<'a>(tensor: &'a Tensor, counts: &HashMap<u64, u64>) -> Option<&'a Expr>
    ensures { option_map (λ c. formula_of c.now) result
        ≡ first_passing (is_repeated (λ q. unwrap_or (get nat_eq counts.now q) 0))
        (compounds_of (plain_tensor tensor.now)) }
{
    match &tensor.formula {
        Some(formula) => candidate(formula, counts).1,
        None => None,
    }
}

// The same of all tensors, and the number of the tensor in whose formula it stands.
fn first_candidate<'a>(tensors: &'a [Tensor], counts: &HashMap<u64, u64>) -> Option<(u32, &'a Expr)>
    requires { length tensors.now < 2 ^ 32 }
    ensures { MatchOption result (site_passing (is_repeated (λ q. unwrap_or (get nat_eq counts.now q) 0))
        (sites_from 0 (map plain_tensor tensors.now)) ≡ None)
        (λ s. site_passing (is_repeated (λ q. unwrap_or (get nat_eq counts.now q) 0))
        (sites_from 0 (map plain_tensor tensors.now)) ≡ Some (site s.0 (formula_of s.1.now))) }
{
    for (i, tensor) in tensors.iter().enumerate() {
        if let Some(compound) = candidate_in(tensor, counts) {
            return Some((i as u32, compound));
        }
    }
    None
}

/// The first compound that is shift-equal to another, and the number of the tensor in whose formula it stands. Only a
/// compound whose mark stands twice is compared to all, so the time is mostly that of the formulas' lengths.
pub fn first_site(alloc: Global, tensors: &[Tensor]) -> Result<Option<(u32, &Expr)>, NoMemory>
    requires few { length tensors.now < 2 ^ 32 }
    requires dims { (d : ℕ) × (have_dims d (map plain_tensor tensors.now) ≡ true) }
    ensures { IfOk result (λ found. MatchOption found
        (first_shared (sites_from 0 (map plain_tensor tensors.now)) ≡ None)
        (λ s. first_shared (sites_from 0 (map plain_tensor tensors.now)) ≡ Some (site s.0 (formula_of s.1.now)))) }
{
    let counts = counted(alloc, tensors)?;
    match first_candidate(tensors, &counts) {
        None => Ok(None),
        Some((at, compound)) => {
            if is_twice(compound, tensors) {
                Ok(Some((at, compound)))
            } else {
                Ok(plain_site(tensors))
            }
        }
    }
}
