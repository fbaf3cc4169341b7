ghost use Rattle.std.specs.Prelude.{◌≡◌, List, ℤ, ℕ, true, slice_index_or};
ghost use Rattle.soda_words.specs.IntType.{int32};
ghost use Rattle.int_types.specs.Ranges.{InRange};
ghost use Rattle.soda_ir.specs.Program.{plain};
ghost use Rattle.soda_ir.specs.Tree.{formula_of};
ghost use Rattle.soda_ir.specs.Uses.{each_use, is_good_cell, is_good_place};
ghost use Rattle.soda_eval.specs.Arrays.{Each};
ghost use Rattle.soda_eval.specs.Runs.{HasValues, place_types, scope_of};
ghost use Rattle.soda_eval.specs.Values.{typed, valued, IsReadable};

use crate::scope::{param_type, param_value, tensor_type};
use int_types::{binary, common, literal_type, select, unary, wrap};
use soda_ir::{Expr, Offset, Parts, Program};
use soda_words::Ty;

/// A value for each tensor number and offset.
pub trait Cells {
    ghost value: { Self → ℕ → List ℤ → ℤ };

    /// The value of a tensor at an offset.
    fn cell(&self, tensor: u32, offset: &Offset) -> i128
        ensures { result ≡ value self.now tensor offset.now.items };
}

/// The type of a formula. Every tensor, param and place that it names is one of the program's.
pub fn type_of(program: &Program, expr: &Expr) -> Ty
    requires { each_use (is_good_cell (plain program.now)) (is_good_place (plain program.now)) (formula_of expr.now)
        ≡ true }
    ensures { result ≡ typed (scope_of (plain program.now)) (formula_of expr.now) }
{
    type_in(program.parts(), expr)
}

// The type of a formula. That of an operator is the same for all values, so 0 stands for them.
#[tactic(auto, using(soda_ir::proofs::CallerLemmas::levels))]
fn type_in(parts: &Parts, expr: &Expr) -> Ty
    requires { each_use (is_good_cell (plain parts.now)) (is_good_place (plain parts.now)) (formula_of expr.now)
        ≡ true }
    ensures { result ≡ typed (scope_of (plain parts.now)) (formula_of expr.now) }
{
    match expr {
        Expr::Num(n) => literal_type(*n),
        Expr::Cell { tensor, .. } => tensor_type(parts, *tensor),
        Expr::Par { param, .. } => param_type(parts, *param),
        Expr::Un(op, a) => unary(*op, type_in(parts, a.get()), 0).0,
        Expr::Bin(op, a, b) => {
            let left = type_in(parts, a.get());
            let right = type_in(parts, b.get());
            binary(*op, left, 0, right, 0).0
        }
        Expr::Select(_, a, b) => {
            let left = type_in(parts, a.get());
            let right = type_in(parts, b.get());
            common(left, right)
        }
        Expr::Cast(ty, _) => *ty,
    }
}

/// The value of a formula. Every tensor, param and place that it names is one of the program's, `cells` has a value in
/// the tensor's range for each cell that it reads, and `params` has the values of all params in order, in range.
pub fn eval<C: Cells>(program: &Program, expr: &Expr, cells: &C, params: &[i128]) -> i128
    requires uses { each_use (is_good_cell (plain program.now)) (is_good_place (plain program.now))
        (formula_of expr.now) ≡ true }
    requires params { HasValues (place_types (plain program.now).params) params.now }
    requires cells { Each (λ t o. InRange (slice_index_or (scope_of (plain program.now)).tensors t int32)
        (C.value cells.now t o)) (formula_of expr.now) }
    ensures { result ≡ valued (scope_of (plain program.now)) (C.value cells.now) params.now (formula_of expr.now) }
{
    evaluate(program.parts(), expr, cells, params).1
}

// The type and value of a formula.
#[tactic(auto, using(soda_ir::proofs::CallerLemmas::levels))]
pub(crate) fn evaluate<C: Cells>(
    parts: &Parts,
    expr: &Expr,
    cells: &C,
    params: &[i128],
) -> (Ty, i128)
    requires { IsReadable (scope_of (plain parts.now)) (C.value cells.now) params.now (formula_of expr.now) }
    ensures ty { result.0 ≡ typed (scope_of (plain parts.now)) (formula_of expr.now) }
    ensures value { result.1 ≡ valued (scope_of (plain parts.now)) (C.value cells.now) params.now
        (formula_of expr.now) }
    ensures in_range { InRange result.0 result.1 }
{
    match expr {
        Expr::Num(n) => (literal_type(*n), *n as i128),
        Expr::Cell { tensor, offset } => (tensor_type(parts, *tensor), cells.cell(*tensor, offset)),
        Expr::Par { param, place } => (
            param_type(parts, *param),
            param_value(parts, params, *param, *place),
        ),
        Expr::Un(op, a) => {
            let (ty, v) = evaluate(parts, a.get(), cells, params);
            unary(*op, ty, v)
        }
        Expr::Bin(op, a, b) => {
            let (left, x) = evaluate(parts, a.get(), cells, params);
            let (right, y) = evaluate(parts, b.get(), cells, params);
            binary(*op, left, x, right, y)
        }
        Expr::Select(c, a, b) => {
            let (_, c) = evaluate(parts, c.get(), cells, params);
            let (left, x) = evaluate(parts, a.get(), cells, params);
            let (right, y) = evaluate(parts, b.get(), cells, params);
            select(c, left, x, right, y)
        }
        Expr::Cast(ty, a) => {
            let (_, v) = evaluate(parts, a.get(), cells, params);
            (*ty, wrap(*ty, v))
        }
    }
}
