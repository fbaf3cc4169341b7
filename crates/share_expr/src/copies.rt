ghost use Rattle.std.specs.Prelude.{◌≡◌, ◌≤◌, length, map, option_map, IfOk};
ghost use Rattle.soda_ir.specs.Program.{plain, plain_param, plain_tensor};
ghost use Rattle.soda_ir.specs.Tree.{formula_of};
ghost use Rattle.share_expr.specs.Working.{with_tensors};

use crate::NoMemory;
use arrayvec::ArrayVec;
use soda_ir::{Expr, Offset, Param, Parts, Tensor};
use sqlite_items::{Boxed, Items};
use std::alloc::Global;

/// The same offset once more.
pub(crate) fn copy_offset(offset: &[i64]) -> Offset
    requires { length offset.now ≤ 4 }
    ensures { result.items ≡ offset.now }
{
    let mut copy: Offset = ArrayVec::new();
    for (i, d) in offset.iter().enumerate() {
        let _ = i;
        copy.push(*d);
    }
    copy
}

/// The same formula once more.
#[tactic(auto, using(soda_ir::proofs::CallerLemmas::levels))]
pub(crate) fn copy_expr(alloc: Global, expr: &Expr) -> Result<Expr, NoMemory>
    ensures { IfOk result (λ e. formula_of e ≡ formula_of expr.now) }
{
    match expr {
        Expr::Num(n) => Ok(Expr::Num(*n)),
        Expr::Cell { tensor, offset } => Ok(Expr::Cell {
            tensor: *tensor,
            offset: copy_offset(offset.as_slice()),
        }),
        Expr::Par { param, place } => Ok(Expr::Par {
            param: *param,
            place: *place,
        }),
        Expr::Un(op, a) => {
            let a = copy_expr(alloc, a.get())?;
            Ok(Expr::Un(*op, Boxed::new(alloc, a)?))
        }
        Expr::Bin(op, a, b) => {
            let a = copy_expr(alloc, a.get())?;
            let a = Boxed::new(alloc, a)?;
            let b = copy_expr(alloc, b.get())?;
            let b = Boxed::new(alloc, b)?;
            Ok(Expr::Bin(*op, a, b))
        }
        Expr::Select(c, a, b) => {
            let c = copy_expr(alloc, c.get())?;
            let c = Boxed::new(alloc, c)?;
            let a = copy_expr(alloc, a.get())?;
            let a = Boxed::new(alloc, a)?;
            let b = copy_expr(alloc, b.get())?;
            let b = Boxed::new(alloc, b)?;
            Ok(Expr::Select(c, a, b))
        }
        Expr::Cast(ty, a) => {
            let a = copy_expr(alloc, a.get())?;
            Ok(Expr::Cast(*ty, Boxed::new(alloc, a)?))
        }
    }
}

// The formula of a tensor once more, if it has one.
fn copy_formula(alloc: Global, formula: &Option<Expr>) -> Result<Option<Expr>, NoMemory>
    ensures { IfOk result (λ f. option_map formula_of f ≡ option_map formula_of formula.now) }
{
    match formula {
        Some(expr) => Ok(Some(copy_expr(alloc, expr)?)),
        None => Ok(None),
    }
}

fn copy_tensor(alloc: Global, tensor: &Tensor) -> Result<Tensor, NoMemory>
    ensures { IfOk result (λ t. plain_tensor t ≡ plain_tensor tensor.now) }
{
    let name = Items::from_slice(alloc, tensor.name.as_slice())?;
    let formula = copy_formula(alloc, &tensor.formula)?;
    Ok(Tensor {
        name,
        ty: tensor.ty,
        role: tensor.role,
        formula,
    })
}

fn copy_param(alloc: Global, param: &Param) -> Result<Param, NoMemory>
    ensures { IfOk result (λ q. plain_param q ≡ plain_param param.now) }
{
    let name = Items::from_slice(alloc, param.name.as_slice())?;
    let sizes = Items::from_slice(alloc, param.sizes.as_slice())?;
    Ok(Param {
        name,
        ty: param.ty,
        sizes,
    })
}

/// The same tensors once more.
pub(crate) fn copy_tensors(alloc: Global, tensors: &[Tensor]) -> Result<Vec<Tensor>, NoMemory>
    ensures { IfOk result (λ ts. map plain_tensor ts.items ≡ map plain_tensor tensors.now) }
{
    let mut copies = Vec::new(alloc);
    for tensor in tensors {
        copies.push(copy_tensor(alloc, tensor)?)?;
    }
    Ok(copies)
}

fn copy_params(alloc: Global, params: &[Param]) -> Result<Items<Param>, NoMemory>
    ensures { IfOk result (λ qs. map plain_param qs ≡ map plain_param params.now) }
{
    let mut copies = Items::new(alloc);
    for param in params {
        copies.push(copy_param(alloc, param)?)?;
    }
    Ok(copies)
}

/// The same parts once more, but with these tensors.
pub(crate) fn with_tensors(
    alloc: Global,
    parts: &Parts,
    tensors: Vec<Tensor>,
) -> Result<Parts, NoMemory>
    ensures { IfOk result (λ p. plain p ≡ with_tensors parts.now tensors.items) }
{
    let kernel = Items::from_slice(alloc, parts.kernel.as_slice())?;
    let extents = Items::from_slice(alloc, parts.extents.as_slice())?;
    let params = copy_params(alloc, parts.params.as_slice())?;
    Ok(Parts {
        kernel,
        burst: parts.burst,
        unroll: parts.unroll,
        iterate: parts.iterate,
        border: parts.border,
        params,
        extents,
        tensors: Items::from_vec(tensors),
    })
}
