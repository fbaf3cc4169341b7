ghost use Rattle.std.specs.Prelude.{◌≡◌, ◌≤◌, [], length, map, unsigned_abs, Some, None, IfOk, MatchOption};
ghost use Rattle.soda_words.specs.Limits.{most_offset, most_tensors};
ghost use Rattle.soda_ir.specs.Counts.{IsCountable};
ghost use Rattle.soda_ir.specs.Formula.{by_formula};
ghost use Rattle.soda_ir.specs.Program.{plain, plain_tensor};
ghost use Rattle.soda_ir.specs.Tree.{formula_of};
ghost use Rattle.share_shape.specs.Limits.{all_magnitudes, first_past, limit_passed, magnitudes};

use crate::NoMemory;
use soda_ir::{Expr, LimitKind, Parts, Tensor, live_count, read_count};
use soda_words::{MOST_LIVE, MOST_OFFSET, MOST_READS, MOST_TENSORS};
use std::alloc::Global;

// The first magnitude of a component that passes its limit.
fn far_component(offset: &[i64]) -> Option<u64>
    ensures { result ≡ first_past most_offset (map unsigned_abs offset.now) }
{
    for d in offset {
        let magnitude = d.unsigned_abs();
        if magnitude > MOST_OFFSET {
            return Some(magnitude);
        }
    }
    None
}

// The first magnitude of a component of a formula's offsets that passes its limit.
#[tactic(auto, using(soda_ir::proofs::CallerLemmas::levels, share_shape::proofs::CallerLemmas::past_append))]
fn far_offset(expr: &Expr) -> Option<u64>
    ensures { result ≡ first_past most_offset (magnitudes (formula_of expr.now)) }
{
    match expr {
        Expr::Num(_) | Expr::Par { .. } => None,
        Expr::Cell { offset, .. } => far_component(offset.as_slice()),
        Expr::Un(_, a) => far_offset(a.get()),
        Expr::Bin(_, a, b) => match far_offset(a.get()) {
            Some(magnitude) => Some(magnitude),
            None => far_offset(b.get()),
        },
        Expr::Select(c, a, b) => match far_offset(c.get()) {
            Some(magnitude) => Some(magnitude),
            None => match far_offset(a.get()) {
                Some(magnitude) => Some(magnitude),
                None => far_offset(b.get()),
            },
        },
        Expr::Cast(_, a) => far_offset(a.get()),
    }
}

// The same of a tensor's formula, if it has one.
fn far_offset_of(tensor: &Tensor) -> Option<u64>
    ensures { result ≡ first_past most_offset (by_formula (plain_tensor tensor.now).formula [] magnitudes) }
{
    match &tensor.formula {
        Some(formula) => far_offset(formula),
        None => None,
    }
}

// The same of all formulas.
fn far_offset_in(tensors: &[Tensor]) -> Option<u64>
    ensures { result ≡ first_past most_offset (all_magnitudes (map plain_tensor tensors.now)) }
{
    for tensor in tensors {
        if let Some(magnitude) = far_offset_of(tensor) {
            return Some(magnitude);
        }
    }
    None
}

/// The first of the limits on offsets, tensors, live tensors and reads that the program passes, and the number that
/// passes it. Where it keeps the first two, the others can be counted.
pub(crate) fn limit_passed(
    alloc: Global,
    parts: &Parts,
) -> Result<Option<(LimitKind, u128)>, NoMemory>
    requires { first_past most_offset (all_magnitudes (plain parts.now).tensors) ≡ None
        → length (plain parts.now).tensors ≤ most_tensors → IsCountable (plain parts.now) }
    ensures { IfOk result (λ passed. MatchOption passed (limit_passed (plain parts.now) ≡ None)
        (λ x. limit_passed (plain parts.now) ≡ Some (record { kind = x.0; number = x.1 }))) }
{
    if let Some(magnitude) = far_offset_in(parts.tensors.as_slice()) {
        return Ok(Some((LimitKind::Offset, magnitude as u128)));
    }
    let tensors = parts.tensors.len();
    if tensors > MOST_TENSORS {
        return Ok(Some((LimitKind::Tensors, tensors as u128)));
    }
    let live = live_count(alloc, parts)?;
    if live > MOST_LIVE {
        return Ok(Some((LimitKind::Live, live as u128)));
    }
    let reads = read_count(alloc, parts)?;
    if reads > MOST_READS as u128 {
        return Ok(Some((LimitKind::Reads, reads)));
    }
    Ok(None)
}
