ghost use Rattle.std.specs.Prelude.{◌≡◌, ◌≤◌, ◌+ℤ◌, ◌-ℤ◌, map, drop, true, false, neg_ℤ, pos, length, slice_index_or, IfOk, IfSome, MatchOption};
ghost use Rattle.std.specs.Ordering.{int_eq};
ghost use Rattle.soda_ir.specs.Tree.{formula_of};
ghost use Rattle.soda_eval.specs.Points.{moved};
ghost use Rattle.share_shape.specs.Shifts.{first_offset, has_cell, is_same, is_same_offset, shifted};

use crate::NoMemory;
use arrayvec::ArrayVec;
use soda_ir::{Expr, Offset};

/// The offset of the first cell of a formula, from the left.
#[tactic(auto, using(soda_ir::proofs::CallerLemmas::levels))]
pub fn first_cell(expr: &Expr) -> Option<&Offset>
    ensures { MatchOption result (has_cell (formula_of expr.now) ≡ false) (λ o. (has_cell (formula_of expr.now) ≡ true)
        × (o.now.items ≡ first_offset (formula_of expr.now))) }
{
    match expr {
        Expr::Num(_) | Expr::Par { .. } => None,
        Expr::Cell { offset, .. } => Some(offset),
        Expr::Un(_, a) => first_cell(a.get()),
        Expr::Bin(_, a, b) => match first_cell(a.get()) {
            Some(offset) => Some(offset),
            None => first_cell(b.get()),
        },
        Expr::Select(c, a, b) => match first_cell(c.get()) {
            Some(offset) => Some(offset),
            None => match first_cell(a.get()) {
                Some(offset) => Some(offset),
                None => first_cell(b.get()),
            },
        },
        Expr::Cast(_, a) => first_cell(a.get()),
    }
}

/// The component of this number, and 0 past the last.
pub(crate) fn component(offset: &[i64], number: usize) -> i64
    ensures { result ≡ slice_index_or offset.now number (pos 0) }
{
    match offset.get(number) {
        Some(d) => *d,
        None => 0,
    }
}

// One number less another, if 64 bits hold it.
fn less(a: i64, b: i64) -> Option<i64>
    ensures { IfSome result (λ d. d ≡ a -ℤ b) }
{
    a.checked_sub(b)
}

/// The offset less another. Want of memory comes also where 64 bits don't hold a component.
pub fn difference(offset: &[i64], first: &[i64]) -> Result<Offset, NoMemory>
    requires { length first.now ≤ 4 }
    ensures { IfOk result (λ d. d.items ≡ moved offset.now (map neg_ℤ first.now)) }
{
    let mut made: Offset = ArrayVec::new();
    for (i, f) in first.iter().enumerate() {
        match less(component(offset, i), *f) {
            Some(d) => made.push(d),
            None => return Err(NoMemory),
        }
    }
    Ok(made)
}

/// One number less another.
pub(crate) fn apart(a: i64, b: i64) -> i128
    ensures { result ≡ a +ℤ neg_ℤ b }
{
    a as i128 - b as i128
}

fn is_equal(a: i128, b: i128) -> bool
    ensures { result ≡ int_eq a b }
{
    a == b
}

/// Whether an offset less one is another less one.
pub(crate) fn is_same_distance(a: &[i64], first: &[i64], b: &[i64], other: &[i64]) -> bool
    ensures { result ≡ is_same_offset (moved a.now (map neg_ℤ first.now)) (moved b.now (map neg_ℤ other.now)) }
{
    if first.len() != other.len() {
        return false;
    }
    for (i, f) in first.iter().enumerate() {
        let here = apart(component(a, i), *f);
        let there = apart(component(b, i), component(other, i));
        if !is_equal(here, there) {
            return false;
        }
    }
    true
}
