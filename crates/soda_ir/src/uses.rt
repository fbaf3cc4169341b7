ghost use Rattle.std.specs.Prelude.{◌≡◌, ◌&&◌};
ghost use Rattle.soda_ir.specs.Program.{plain, plain_tensor};
ghost use Rattle.soda_ir.specs.Tree.{formula_of};
ghost use Rattle.soda_ir.specs.Uses.{each_use, is_good_cell, is_good_place, is_near};
ghost use Rattle.soda_ir.specs.Valid.{has_formula_if_no_input, has_good_uses, is_small};

use crate::expr::{Expr, Offset};
use crate::params::product;
use crate::program::{Parts, Tensor};
use crate::written::{most_open, token_count};
use soda_words::{MOST_BRACKETS, MOST_OFFSET, MOST_TOKENS};

fn is_near(offset: &[i64]) -> bool
    ensures { result ≡ is_near offset.now }
{
    for d in offset {
        if d.unsigned_abs() > MOST_OFFSET {
            return false;
        }
    }
    true
}

fn is_good_cell(parts: &Parts, tensor: u32, offset: &Offset) -> bool
    ensures { result ≡ is_good_cell (plain parts.now) tensor offset.now.items }
{
    let dims = parts.extents.len() as u128 + 1;
    (tensor as usize) < parts.tensors.len()
        && offset.len() as u128 == dims
        && is_near(offset.as_slice())
}

fn is_good_place(parts: &Parts, param: u32, place: u32) -> bool
    ensures { result ≡ is_good_place (plain parts.now) param place }
{
    match parts.params.get(param as usize) {
        Some(param) => (place as u128) < product(param.sizes.as_slice()),
        None => false,
    }
}

#[tactic(auto, using(crate::proofs::CallerLemmas::levels))]
fn names_what_is_there(parts: &Parts, expr: &Expr) -> bool
    ensures { result ≡ each_use (is_good_cell (plain parts.now)) (is_good_place (plain parts.now))
        (formula_of expr.now) }
{
    match expr {
        Expr::Num(_) => true,
        Expr::Cell { tensor, offset } => is_good_cell(parts, *tensor, offset),
        Expr::Par { param, place } => is_good_place(parts, *param, *place),
        Expr::Un(_, a) => names_what_is_there(parts, a.get()),
        Expr::Bin(_, a, b) => {
            names_what_is_there(parts, a.get()) && names_what_is_there(parts, b.get())
        }
        Expr::Select(c, a, b) => {
            names_what_is_there(parts, c.get())
                && names_what_is_there(parts, a.get())
                && names_what_is_there(parts, b.get())
        }
        Expr::Cast(_, a) => names_what_is_there(parts, a.get()),
    }
}

/// Whether a formula names tensors, params and places that are there, at offsets that may be.
pub(crate) fn has_good_uses(parts: &Parts, tensor: &Tensor) -> bool
    ensures { result ≡ has_good_uses (plain parts.now) (plain_tensor tensor.now) }
{
    match &tensor.formula {
        Some(formula) => names_what_is_there(parts, formula),
        None => true,
    }
}

/// Whether a formula keeps the size rules as it is written.
pub(crate) fn is_small(parts: &Parts, tensor: &Tensor) -> bool
    ensures { result ≡ is_small (plain parts.now) (plain_tensor tensor.now) }
{
    match &tensor.formula {
        Some(formula) => {
            token_count(parts, formula) <= MOST_TOKENS as u64
                && most_open(parts, formula) <= MOST_BRACKETS as u64
        }
        None => true,
    }
}

/// Whether a tensor has a formula exactly where it is no input.
pub(crate) fn has_formula_if_no_input(tensor: &Tensor) -> bool
    ensures { result ≡ has_formula_if_no_input (plain_tensor tensor.now) }
{
    match &tensor.formula {
        Some(_) => !tensor.role.is_input(),
        None => tensor.role.is_input(),
    }
}
