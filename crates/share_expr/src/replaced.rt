ghost use Rattle.std.specs.Prelude.{◌≡◌, map, neg_ℤ, false, true, IfOk, MatchOption};
ghost use Rattle.soda_ir.specs.Formula.{read};
ghost use Rattle.soda_ir.specs.Tree.{formula_of};
ghost use Rattle.share_shape.specs.Procedure.{further, renumbered, replaced};
ghost use Rattle.share_shape.specs.Sizes.{joined, size};
ghost use Rattle.share_shape.specs.Shifts.{are_shift_equal, first_offset, has_cell, shifted};

use crate::NoMemory;
use crate::copies::copy_offset;
use share_shape::{are_shift_equal, difference, first_cell, joined};
use soda_ir::{Expr, Offset};
use sqlite_items::Boxed;
use std::alloc::Global;

// The number of a tensor once another stands at a number. Want of memory comes where there are too many tensors to be
// numbered.
fn further(at: u32, tensor: u32) -> Result<u32, NoMemory>
    ensures { IfOk result (λ t. t ≡ further at tensor) }
{
    if tensor < at {
        return Ok(tensor);
    }
    match tensor.checked_add(1) {
        Some(next) => Ok(next),
        None => Err(NoMemory),
    }
}

/// The formula of a local at a number: that of a compound, with the offset of its first cell subtracted.
#[tactic(auto, using(soda_ir::proofs::CallerLemmas::levels))]
pub(crate) fn local_formula(
    alloc: Global,
    at: u32,
    first: &Offset,
    expr: &Expr,
) -> Result<Expr, NoMemory>
    ensures { IfOk result (λ e. formula_of e
        ≡ renumbered at (shifted (map neg_ℤ first.now.items) (formula_of expr.now))) }
{
    match expr {
        Expr::Num(n) => Ok(Expr::Num(*n)),
        Expr::Cell { tensor, offset } => {
            let tensor = further(at, *tensor)?;
            let offset = difference(offset.as_slice(), first.as_slice())?;
            Ok(Expr::Cell { tensor, offset })
        }
        Expr::Par { param, place } => Ok(Expr::Par {
            param: *param,
            place: *place,
        }),
        Expr::Un(op, a) => {
            let a = local_formula(alloc, at, first, a.get())?;
            Ok(Expr::Un(*op, Boxed::new(alloc, a)?))
        }
        Expr::Bin(op, a, b) => {
            let a = local_formula(alloc, at, first, a.get())?;
            let a = Boxed::new(alloc, a)?;
            let b = local_formula(alloc, at, first, b.get())?;
            let b = Boxed::new(alloc, b)?;
            Ok(Expr::Bin(*op, a, b))
        }
        Expr::Select(c, a, b) => {
            let c = local_formula(alloc, at, first, c.get())?;
            let c = Boxed::new(alloc, c)?;
            let a = local_formula(alloc, at, first, a.get())?;
            let a = Boxed::new(alloc, a)?;
            let b = local_formula(alloc, at, first, b.get())?;
            let b = Boxed::new(alloc, b)?;
            Ok(Expr::Select(c, a, b))
        }
        Expr::Cast(ty, a) => {
            let a = local_formula(alloc, at, first, a.get())?;
            Ok(Expr::Cast(*ty, Boxed::new(alloc, a)?))
        }
    }
}

// The cell of the local at a number that stands for a formula, where it is shift-equal to the local's compound. Each
// has a size.
#[tactic(auto, using(share_shape::proofs::CallerLemmas::told_apart))]
fn cell_for(at: u32, compound: &Expr, wanted: u64, expr: &Expr, own: u64) -> Option<Expr>
    requires cell { has_cell (formula_of compound.now) ≡ true }
    requires wanted { wanted ≡ size (formula_of compound.now) }
    requires own { own ≡ size (formula_of expr.now) }
    ensures { MatchOption result (are_shift_equal (formula_of compound.now) (formula_of expr.now) ≡ false)
        (λ e. (are_shift_equal (formula_of compound.now) (formula_of expr.now) ≡ true)
        × (formula_of e ≡ read at (first_offset (formula_of expr.now)))) }
{
    if own != wanted {
        return None;
    }
    match first_cell(expr) {
        Some(first) => {
            if are_shift_equal(compound, expr) {
                Some(Expr::Cell {
                    tensor: at,
                    offset: copy_offset(first.as_slice()),
                })
            } else {
                None
            }
        }
        None => None,
    }
}

/// The formula over the tensors with a local at a number, where each compound that is shift-equal to the local's, which
/// is of a size, is read from it; and the size of the formula before.
#[tactic(auto, using(soda_ir::proofs::CallerLemmas::levels))]
pub(crate) fn replaced(
    alloc: Global,
    at: u32,
    compound: &Expr,
    wanted: u64,
    expr: &Expr,
) -> Result<(Expr, u64), NoMemory>
    requires cell { has_cell (formula_of compound.now) ≡ true }
    requires wanted { wanted ≡ size (formula_of compound.now) }
    ensures formula { IfOk result (λ r. formula_of r.0 ≡ replaced at (formula_of compound.now) (formula_of expr.now)) }
    ensures size { IfOk result (λ r. r.1 ≡ size (formula_of expr.now)) }
{
    match expr {
        Expr::Num(n) => Ok((Expr::Num(*n), 1)),
        Expr::Cell { tensor, offset } => {
            let tensor = further(at, *tensor)?;
            let offset = copy_offset(offset.as_slice());
            Ok((Expr::Cell { tensor, offset }, 1))
        }
        Expr::Par { param, place } => {
            let (param, place) = (*param, *place);
            Ok((Expr::Par { param, place }, 1))
        }
        Expr::Un(op, a) => {
            let (a, size) = replaced(alloc, at, compound, wanted, a.get())?;
            let a = Boxed::new(alloc, a)?;
            let size = joined(0, size);
            match cell_for(at, compound, wanted, expr, size) {
                Some(cell) => {
                    drop(a);
                    Ok((cell, size))
                }
                None => Ok((Expr::Un(*op, a), size)),
            }
        }
        Expr::Bin(op, a, b) => {
            let (a, size) = replaced(alloc, at, compound, wanted, a.get())?;
            let a = Boxed::new(alloc, a)?;
            let (b, more) = replaced(alloc, at, compound, wanted, b.get())?;
            let b = Boxed::new(alloc, b)?;
            let size = joined(size, more);
            match cell_for(at, compound, wanted, expr, size) {
                Some(cell) => {
                    drop(a);
                    drop(b);
                    Ok((cell, size))
                }
                None => Ok((Expr::Bin(*op, a, b), size)),
            }
        }
        Expr::Select(c, a, b) => {
            let (c, size) = replaced(alloc, at, compound, wanted, c.get())?;
            let c = Boxed::new(alloc, c)?;
            let (a, more) = replaced(alloc, at, compound, wanted, a.get())?;
            let a = Boxed::new(alloc, a)?;
            let (b, most) = replaced(alloc, at, compound, wanted, b.get())?;
            let b = Boxed::new(alloc, b)?;
            let size = joined(size, joined(more, most));
            match cell_for(at, compound, wanted, expr, size) {
                Some(cell) => {
                    drop(c);
                    drop(a);
                    drop(b);
                    Ok((cell, size))
                }
                None => Ok((Expr::Select(c, a, b), size)),
            }
        }
        Expr::Cast(ty, a) => {
            let (a, size) = replaced(alloc, at, compound, wanted, a.get())?;
            let a = Boxed::new(alloc, a)?;
            let size = joined(0, size);
            match cell_for(at, compound, wanted, expr, size) {
                Some(cell) => {
                    drop(a);
                    Ok((cell, size))
                }
                None => Ok((Expr::Cast(*ty, a), size)),
            }
        }
    }
}
