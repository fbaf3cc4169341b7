ghost use Rattle.std.specs.Prelude.{◌≡◌, ◌≤◌, ◌+◌, ◌&&◌, map, min, option_map, true};
ghost use Rattle.soda_ir.specs.Program.{plain_tensor};
ghost use Rattle.share_shape.specs.machine.Search.{first_passing, is_twice};
ghost use Rattle.share_shape.specs.Sizes.{joined, size};
ghost use Rattle.share_shape.specs.Counts.{hits, one, tensor_hits};
ghost use Rattle.share_shape.specs.Compounds.{compounds};
ghost use Rattle.soda_ir.specs.Tree.{formula_of};
ghost use Rattle.share_shape.specs.Shifts.{are_shift_equal, has_cell};

use crate::cells::first_cell;
use crate::equal::are_shift_equal;
use crate::formula_size::{joined, size};
use soda_ir::{Expr, Tensor};

// Whether a formula is shift-equal to a compound. Each has a size.
#[tactic(auto, using(crate::proofs::Unequal::no_hit, crate::proofs::Unequal::unequal))]
fn is_hit(compound: &Expr, wanted: u64, expr: &Expr, own: u64) -> bool
    requires cell { has_cell (formula_of compound.now) ≡ true }
    requires wanted { wanted ≡ size (formula_of compound.now) }
    requires own { own ≡ size (formula_of expr.now) }
    ensures { result ≡ are_shift_equal (formula_of compound.now) (formula_of expr.now) }
{
    if own != wanted {
        return false;
    }
    match first_cell(expr) {
        Some(_) => are_shift_equal(compound, expr),
        None => false,
    }
}

// The sum of two counts, at most 2.
fn added(a: u8, b: u8) -> u8
    requires one { a ≤ 2 }
    requires other { b ≤ 2 }
    ensures value { result ≡ min 2 (a + b) }
    ensures few { result ≤ 2 }
{
    if a + b < 2 { a + b } else { 2 }
}

fn as_count(hit: bool) -> u8
    ensures value { result ≡ one hit }
    ensures few { result ≤ 2 }
{
    if hit { 1 } else { 0 }
}

/// How many operators, calls and casts of a formula are shift-equal to a compound of this size, at most 2, and the
/// formula's own size.
#[tactic(auto, using(soda_ir::proofs::CallerLemmas::levels))]
fn hits(compound: &Expr, wanted: u64, expr: &Expr) -> (u8, u64)
    requires cell { has_cell (formula_of compound.now) ≡ true }
    requires wanted { wanted ≡ size (formula_of compound.now) }
    ensures value { result.0 ≡ min 2 (hits (formula_of compound.now) (formula_of expr.now)) }
    ensures few { result.0 ≤ 2 }
    ensures size { result.1 ≡ size (formula_of expr.now) }
{
    match expr {
        Expr::Num(_) | Expr::Cell { .. } | Expr::Par { .. } => (0, 1),
        Expr::Un(_, a) => {
            let (inside, size) = hits(compound, wanted, a.get());
            let size = joined(0, size);
            let here = as_count(is_hit(compound, wanted, expr, size));
            (added(here, inside), size)
        }
        Expr::Bin(_, a, b) => {
            let (left, size) = hits(compound, wanted, a.get());
            let (right, more) = hits(compound, wanted, b.get());
            let size = joined(size, more);
            let here = as_count(is_hit(compound, wanted, expr, size));
            (added(here, added(left, right)), size)
        }
        Expr::Select(c, a, b) => {
            let (test, size) = hits(compound, wanted, c.get());
            let (left, more) = hits(compound, wanted, a.get());
            let (right, most) = hits(compound, wanted, b.get());
            let size = joined(size, joined(more, most));
            let here = as_count(is_hit(compound, wanted, expr, size));
            (added(here, added(test, added(left, right))), size)
        }
        Expr::Cast(_, a) => {
            let (inside, size) = hits(compound, wanted, a.get());
            let size = joined(0, size);
            let here = as_count(is_hit(compound, wanted, expr, size));
            (added(here, inside), size)
        }
    }
}

// The first of it of a tensor's formula, if it has one.
fn tensor_hits(compound: &Expr, wanted: u64, tensor: &Tensor) -> u8
    requires cell { has_cell (formula_of compound.now) ≡ true }
    requires wanted { wanted ≡ size (formula_of compound.now) }
    ensures value { result ≡ min 2 (tensor_hits (formula_of compound.now) (plain_tensor tensor.now)) }
    ensures few { result ≤ 2 }
{
    match &tensor.formula {
        Some(formula) => hits(compound, wanted, formula).0,
        None => 0,
    }
}

/// Whether a compound is shift-equal to two operators, calls or casts of these tensors' formulas.
pub(crate) fn is_twice(compound: &Expr, tensors: &[Tensor]) -> bool
    requires { has_cell (formula_of compound.now) ≡ true }
    ensures { result ≡ is_twice (map plain_tensor tensors.now) (formula_of compound.now) }
{
    let wanted = size(compound);
    let mut many: u8 = 0;
    for tensor in tensors {
        many = added(many, tensor_hits(compound, wanted, tensor));
        if many == 2 {
            return true;
        }
    }
    false
}

// Whether a formula has a cell and stands twice.
fn is_shared(expr: &Expr, tensors: &[Tensor]) -> bool
    ensures { result ≡ (has_cell (formula_of expr.now)
        && is_twice (map plain_tensor tensors.now) (formula_of expr.now)) }
{
    match first_cell(expr) {
        Some(_) => is_twice(expr, tensors),
        None => false,
    }
}

/// The first compound of a formula that stands twice in these tensors' formulas: from the outside in, and from left to
/// right.
#[tactic(auto, using(crate::proofs::Search::levels, crate::proofs::Search::append, crate::proofs::Search::itself))]
pub(crate) fn first_twice<'a>(expr: &'a Expr, tensors: &[Tensor]) -> Option<&'a Expr>
    ensures { option_map (λ c. formula_of c.now) result
        ≡ first_passing (is_twice (map plain_tensor tensors.now)) (compounds (formula_of expr.now)) }
{
    match expr {
        Expr::Num(_) | Expr::Cell { .. } | Expr::Par { .. } => None,
        Expr::Un(_, a) => {
            if is_shared(expr, tensors) {
                Some(expr)
            } else {
                first_twice(a.get(), tensors)
            }
        }
        Expr::Bin(_, a, b) => {
            if is_shared(expr, tensors) {
                return Some(expr);
            }
            match first_twice(a.get(), tensors) {
                Some(compound) => Some(compound),
                None => first_twice(b.get(), tensors),
            }
        }
        Expr::Select(c, a, b) => {
            if is_shared(expr, tensors) {
                return Some(expr);
            }
            match first_twice(c.get(), tensors) {
                Some(compound) => Some(compound),
                None => match first_twice(a.get(), tensors) {
                    Some(compound) => Some(compound),
                    None => first_twice(b.get(), tensors),
                },
            }
        }
        Expr::Cast(_, a) => {
            if is_shared(expr, tensors) {
                Some(expr)
            } else {
                first_twice(a.get(), tensors)
            }
        }
    }
}
