ghost use Rattle.std.specs.Prelude.{◌≡◌, map, slice_index_or, true, IfOk};
ghost use Rattle.soda_words.specs.IntType.{int32};
ghost use Rattle.soda_ir.specs.Program.{plain_param, plain_tensor};
ghost use Rattle.soda_ir.specs.Tree.{formula_of};
ghost use Rattle.soda_eval.specs.Runs.{scope_of};
ghost use Rattle.soda_eval.specs.Values.{typed};
ghost use Rattle.share_shape.specs.Compounds.{site};
ghost use Rattle.share_shape.specs.Procedure.{local_for, share_number};
ghost use Rattle.share_shape.specs.Shifts.{has_cell};
ghost use Rattle.share_expr.specs.Working.{with_tensors};

use crate::NoMemory;
use crate::names::share_name;
use crate::replaced::local_formula;
use int_types::{binary, common, literal_type, unary};
use share_shape::first_cell;
use soda_ir::{Expr, Param, Parts, Role, Tensor};
use soda_words::{Ty, int32};
use sqlite_items::{Items, at};
use std::alloc::Global;

// The type of a tensor, and int32 past the last.
fn tensor_type(tensors: &[Tensor], tensor: u32) -> Ty
    ensures { result ≡ slice_index_or (map (λ t. t.ty) (map plain_tensor tensors.now)) tensor int32 }
{
    match at(tensors, tensor as usize) {
        Some(tensor) => tensor.ty,
        None => int32(),
    }
}

// The type of a param, and int32 past the last.
fn param_type(params: &[Param], param: u32) -> Ty
    ensures { result ≡ slice_index_or (map (λ q. q.ty) (map plain_param params.now)) param int32 }
{
    match at(params, param as usize) {
        Some(param) => param.ty,
        None => int32(),
    }
}

/// The type of a formula over these tensors. That of an operator is the same for all values, so 0 stands for them.
#[tactic(auto, using(soda_ir::proofs::CallerLemmas::levels))]
pub(crate) fn type_of(parts: &Parts, tensors: &[Tensor], expr: &Expr) -> Ty
    ensures { result ≡ typed (scope_of (with_tensors parts.now tensors.now)) (formula_of expr.now) }
{
    match expr {
        Expr::Num(n) => literal_type(*n),
        Expr::Cell { tensor, .. } => tensor_type(tensors, *tensor),
        Expr::Par { param, .. } => param_type(parts.params.as_slice(), *param),
        Expr::Un(op, a) => unary(*op, type_of(parts, tensors, a.get()), 0).0,
        Expr::Bin(op, a, b) => {
            let left = type_of(parts, tensors, a.get());
            let right = type_of(parts, tensors, b.get());
            binary(*op, left, 0, right, 0).0
        }
        Expr::Select(_, a, b) => {
            let left = type_of(parts, tensors, a.get());
            let right = type_of(parts, tensors, b.get());
            common(left, right)
        }
        Expr::Cast(ty, _) => *ty,
    }
}

/// The local of a compound, which is to stand at a number.
pub(crate) fn local_for(
    alloc: Global,
    parts: &Parts,
    tensors: &[Tensor],
    place: u32,
    compound: &Expr,
    number: u64,
) -> Result<Tensor, NoMemory>
    requires number { number ≡ share_number (with_tensors parts.now tensors.now) }
    requires cell { has_cell (formula_of compound.now) ≡ true }
    ensures { IfOk result (λ t. plain_tensor t
        ≡ local_for (with_tensors parts.now tensors.now) (site place (formula_of compound.now))) }
{
    let name = share_name(alloc, number)?;
    let name = Items::from_slice(alloc, name.as_str().as_bytes())?;
    let ty = type_of(parts, tensors, compound);
    match first_cell(compound) {
        Some(first) => {
            let formula = local_formula(alloc, place, first, compound)?;
            Ok(Tensor {
                name,
                ty,
                role: Role::Local,
                formula: Some(formula),
            })
        }
        None => unreachable!(),
    }
}
