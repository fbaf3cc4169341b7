ghost use Rattle.std.specs.Prelude.{◌≡◌, ◌==◌, map, neg_ℤ, false, true};
ghost use Rattle.soda_ir.specs.Tree.{formula_of};
ghost use Rattle.soda_words.specs.IntType.{is_same_type};
ghost use Rattle.share_shape.specs.Shifts.{are_shift_equal, binary_number, first_offset, has_cell, is_same, shifted, unary_number};

use crate::cells::{first_cell, is_same_distance};
use soda_ir::{Expr, Offset};
use soda_words::{BinOp, Ty, UnOp};

fn is_same_type(a: Ty, b: Ty) -> bool
    ensures { result ≡ is_same_type a b }
{
    a.signed() == b.signed() && a.bits() == b.bits()
}

fn is_same_unary(a: UnOp, b: UnOp) -> bool
    ensures { result ≡ (unary_number a == unary_number b) }
{
    a as u8 == b as u8
}

fn is_same_binary(a: BinOp, b: BinOp) -> bool
    ensures { result ≡ (binary_number a == binary_number b) }
{
    a as u8 == b as u8
}

// Whether two formulas are one, each with an offset subtracted from all of its own.
#[tactic(auto, using(soda_ir::proofs::CallerLemmas::levels))]
fn is_same(a: &Expr, first: &Offset, b: &Expr, other: &Offset) -> bool
    ensures { result ≡ is_same (shifted (map neg_ℤ first.now.items) (formula_of a.now))
        (shifted (map neg_ℤ other.now.items) (formula_of b.now)) }
{
    match a {
        Expr::Num(n) => match b {
            Expr::Num(m) => *n == *m,
            Expr::Cell { .. }
            | Expr::Par { .. }
            | Expr::Un(..)
            | Expr::Bin(..)
            | Expr::Select(..)
            | Expr::Cast(..) => false,
        },
        Expr::Cell { tensor, offset } => match b {
            Expr::Cell {
                tensor: read,
                offset: to,
            } => {
                *tensor == *read
                    && is_same_distance(
                        offset.as_slice(),
                        first.as_slice(),
                        to.as_slice(),
                        other.as_slice(),
                    )
            }
            Expr::Num(_)
            | Expr::Par { .. }
            | Expr::Un(..)
            | Expr::Bin(..)
            | Expr::Select(..)
            | Expr::Cast(..) => false,
        },
        Expr::Par { param, place } => match b {
            Expr::Par {
                param: named,
                place: at,
            } => *param == *named && *place == *at,
            Expr::Num(_)
            | Expr::Cell { .. }
            | Expr::Un(..)
            | Expr::Bin(..)
            | Expr::Select(..)
            | Expr::Cast(..) => false,
        },
        Expr::Un(op, x) => match b {
            Expr::Un(po, y) => is_same_unary(*op, *po) && is_same(x.get(), first, y.get(), other),
            Expr::Num(_)
            | Expr::Cell { .. }
            | Expr::Par { .. }
            | Expr::Bin(..)
            | Expr::Select(..)
            | Expr::Cast(..) => false,
        },
        Expr::Bin(op, x, z) => match b {
            Expr::Bin(po, y, w) => {
                is_same_binary(*op, *po)
                    && is_same(x.get(), first, y.get(), other)
                    && is_same(z.get(), first, w.get(), other)
            }
            Expr::Num(_)
            | Expr::Cell { .. }
            | Expr::Par { .. }
            | Expr::Un(..)
            | Expr::Select(..)
            | Expr::Cast(..) => false,
        },
        Expr::Select(c, x, z) => match b {
            Expr::Select(d, y, w) => {
                is_same(c.get(), first, d.get(), other)
                    && is_same(x.get(), first, y.get(), other)
                    && is_same(z.get(), first, w.get(), other)
            }
            Expr::Num(_)
            | Expr::Cell { .. }
            | Expr::Par { .. }
            | Expr::Un(..)
            | Expr::Bin(..)
            | Expr::Cast(..) => false,
        },
        Expr::Cast(ty, x) => match b {
            Expr::Cast(yt, y) => is_same_type(*ty, *yt) && is_same(x.get(), first, y.get(), other),
            Expr::Num(_)
            | Expr::Cell { .. }
            | Expr::Par { .. }
            | Expr::Un(..)
            | Expr::Bin(..)
            | Expr::Select(..) => false,
        },
    }
}

/// Whether two formulas with a cell each are shift-equal.
pub fn are_shift_equal(a: &Expr, b: &Expr) -> bool
    requires one { has_cell (formula_of a.now) ≡ true }
    requires other { has_cell (formula_of b.now) ≡ true }
    ensures { result ≡ are_shift_equal (formula_of a.now) (formula_of b.now) }
{
    match first_cell(a) {
        Some(first) => match first_cell(b) {
            Some(other) => is_same(a, first, b, other),
            None => unreachable!(),
        },
        None => unreachable!(),
    }
}
