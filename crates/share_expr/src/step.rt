ghost use Rattle.std.specs.Prelude.{◌≡◌, ◌<◌, ◌≤◌, ℕ, length, map, option_map, true, Some, None, IfOk, MatchOption};
ghost use Rattle.std.specs.List.{insert};
ghost use Rattle.soda_ir.specs.Program.{plain_tensor};
ghost use Rattle.soda_ir.specs.Tree.{formula_of};
ghost use Rattle.share_shape.specs.Compounds.{have_dims, site};
ghost use Rattle.share_shape.specs.Procedure.{is_used, next_shared, replaced, replaced_in, share_number, shared_at};
ghost use Rattle.share_shape.specs.Shifts.{has_cell};
ghost use Rattle.share_shape.specs.Sizes.{size};
ghost use Rattle.share_expr.specs.Working.{names_with, with_tensors};

use crate::NoMemory;
use crate::local::local_for;
use crate::names::unused_number;
use crate::replaced::replaced;
use share_shape::{first_site, size};
use soda_ir::{Expr, Parts, Tensor};
use sqlite_items::Items;
use std::alloc::Global;

// The formula of a tensor, if it has one, with the compounds replaced that are shift-equal to one of this
// size.
fn replaced_formula(
    alloc: Global,
    at: u32,
    compound: &Expr,
    wanted: u64,
    formula: &Option<Expr>,
) -> Result<Option<Expr>, NoMemory>
    requires cell { has_cell (formula_of compound.now) ≡ true }
    requires wanted { wanted ≡ size (formula_of compound.now) }
    ensures { IfOk result (λ f. option_map formula_of f
        ≡ option_map (replaced at (formula_of compound.now)) (option_map formula_of formula.now)) }
{
    match formula {
        Some(expr) => Ok(Some(replaced(alloc, at, compound, wanted, expr)?.0)),
        None => Ok(None),
    }
}

// The same of a tensor.
fn replaced_tensor(
    alloc: Global,
    at: u32,
    compound: &Expr,
    wanted: u64,
    tensor: &Tensor,
) -> Result<Tensor, NoMemory>
    requires cell { has_cell (formula_of compound.now) ≡ true }
    requires wanted { wanted ≡ size (formula_of compound.now) }
    ensures { IfOk result (λ t. plain_tensor t ≡ replaced_in at (formula_of compound.now) (plain_tensor tensor.now)) }
{
    let name = Items::from_slice(alloc, tensor.name.as_slice())?;
    let formula = replaced_formula(alloc, at, compound, wanted, &tensor.formula)?;
    Ok(Tensor {
        name,
        ty: tensor.ty,
        role: tensor.role,
        formula,
    })
}

// The same of all tensors.
fn replaced_tensors(
    alloc: Global,
    at: u32,
    compound: &Expr,
    tensors: &[Tensor],
) -> Result<Vec<Tensor>, NoMemory>
    requires { has_cell (formula_of compound.now) ≡ true }
    ensures { IfOk result (λ ts. map plain_tensor ts.items
        ≡ map (replaced_in at (formula_of compound.now)) (map plain_tensor tensors.now)) }
{
    let wanted = size(compound);
    let mut made = Vec::new(alloc);
    for tensor in tensors {
        made.push(replaced_tensor(alloc, at, compound, wanted, tensor)?)?;
    }
    Ok(made)
}

// Puts a tensor before the one of a number.
#[tactic(auto, using(share_shape::proofs::CallerLemmas::map_insert))]
fn put_before(tensors: Vec<Tensor>, at: u32, tensor: Tensor) -> Result<Vec<Tensor>, NoMemory>
    requires { at ≤ length tensors.items }
    ensures { IfOk result (λ ts. map plain_tensor ts.items
        ≡ insert (map plain_tensor tensors.items) at (plain_tensor tensor)) }
{
    let mut tensors = tensors;
    match tensors.insert(at as usize, tensor) {
        Ok(()) => Ok(tensors),
        Err(refused) => {
            drop(refused);
            drop(tensors);
            Err(NoMemory)
        }
    }
}

// The tensors with the local of a compound just before the statement that holds it, and all compounds that are
// shift-equal to it read from the local.
#[tactic(auto, unfolding(share_shape::specs::Procedure::shared_at))]
fn shared_at(
    alloc: Global,
    parts: &Parts,
    tensors: &[Tensor],
    at: u32,
    compound: &Expr,
    number: u64,
) -> Result<Vec<Tensor>, NoMemory>
    requires number { number ≡ share_number (with_tensors parts.now tensors.now) }
    requires cell { has_cell (formula_of compound.now) ≡ true }
    requires there { at < length tensors.now }
    ensures { IfOk result (λ ts. with_tensors parts.now ts.items
        ≡ shared_at (with_tensors parts.now tensors.now) (site at (formula_of compound.now))) }
{
    let local = local_for(alloc, parts, tensors, at, compound, number)?;
    let made = replaced_tensors(alloc, at, compound, tensors)?;
    put_before(made, at, local)
}

/// The tensors after a step.
#[derive(Drop)]
pub(crate) struct Step {
    /// The tensors, with one local more.
    pub tensors: Vec<Tensor>,
    /// A number below which each gives a name that is used.
    pub from: u64,
}

/// The step that these tensors have left, if they have one. Each number below `from` gives a name that is used. Want of
/// memory comes also where there are too many tensors to be numbered.
pub(crate) fn next_step(
    alloc: Global,
    parts: &Parts,
    tensors: &[Tensor],
    from: u64,
) -> Result<Option<Step>, NoMemory>
    requires from { (n : ℕ) → n < from → is_used (names_with parts.now tensors.now) n ≡ true }
    requires dims { (d : ℕ) × (have_dims d (map plain_tensor tensors.now) ≡ true) }
    ensures { IfOk result (λ s. MatchOption s (next_shared (with_tensors parts.now tensors.now) ≡ None)
        (λ t. (next_shared (with_tensors parts.now tensors.now) ≡ Some (with_tensors parts.now t.tensors.items))
        × ((n : ℕ) → n < t.from → is_used (names_with parts.now t.tensors.items) n ≡ true))) }
{
    if tensors.len() > u32::MAX as usize {
        return Err(NoMemory);
    }
    match first_site(alloc, tensors)? {
        None => Ok(None),
        Some((at, compound)) => {
            let number = unused_number(alloc, parts, tensors, from)?;
            let tensors = shared_at(alloc, parts, tensors, at, compound, number)?;
            Ok(Some(Step {
                tensors,
                from: number.saturating_add(1),
            }))
        }
    }
}
