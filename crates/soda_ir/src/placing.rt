ghost use Rattle.std.specs.Prelude.{◌≡◌, ◌<◌, ◌^◌, ◌↔◌, ℕ, true, false, length, replicate, slice_index_or, IfOk, IsTrue};
ghost use Rattle.soda_ir.specs.Formula.{by_formula, every};
ghost use Rattle.soda_ir.specs.Counts.{can_be_placed, has_place, tensor_is};
ghost use Rattle.soda_ir.specs.Points.{listed};
ghost use Rattle.soda_ir.specs.Program.{plain};
ghost use Rattle.soda_ir.specs.Tree.{formula_of};

use crate::NoMemory;
use crate::expr::Expr;
use crate::order::placing_order;
use crate::program::Parts;
use std::alloc::Global;

// Whether each tensor that a formula reads is marked.
#[tactic(auto, using(crate::proofs::CallerLemmas::levels))]
fn reads_marked(expr: &Expr, marks: &[bool]) -> bool
    ensures { result ≡ every (λ y o. slice_index_or marks.now y false) (formula_of expr.now) }
{
    match expr {
        Expr::Num(_) | Expr::Par { .. } => true,
        Expr::Cell { tensor, .. } => is_marked(marks, *tensor),
        Expr::Un(_, a) => reads_marked(a.get(), marks),
        Expr::Bin(_, a, b) => reads_marked(a.get(), marks) && reads_marked(b.get(), marks),
        Expr::Select(c, a, b) => {
            reads_marked(c.get(), marks)
                && reads_marked(a.get(), marks)
                && reads_marked(b.get(), marks)
        }
        Expr::Cast(_, a) => reads_marked(a.get(), marks),
    }
}

/// The mark of a tensor, and false where there is none.
pub(crate) fn is_marked(marks: &[bool], tensor: u32) -> bool
    ensures { result ≡ slice_index_or marks.now tensor false }
{
    match marks.get(tensor as usize) {
        Some(mark) => *mark,
        None => false,
    }
}

// Whether all that a tensor reads is marked.
fn is_ready(parts: &Parts, marks: &[bool], tensor: u32) -> bool
    requires { tensor < length parts.now.tensors }
    ensures { result ≡ tensor_is (λ t. by_formula t.formula true (every (λ y o. slice_index_or marks.now y false)))
        (plain parts.now) tensor }
{
    match parts.formula(tensor) {
        Some(formula) => reads_marked(formula, marks),
        None => true,
    }
}

// The tensors that can be placed in one round more.
fn next_round(alloc: Global, parts: &Parts, marks: &[bool]) -> Result<Vec<bool>, NoMemory>
    requires { length parts.now.tensors < 2 ^ 32 }
    ensures { IfOk result (λ next. next.items
        ≡ listed (λ x. tensor_is (λ t. by_formula t.formula true (every (λ y o. slice_index_or marks.now y false)))
        (plain parts.now) x) (length parts.now.tensors)) }
{
    let mut next = Vec::new(alloc);
    for tensor in 0..parts.tensors.len() as u32 {
        next.push(is_ready(parts, marks, tensor))?;
    }
    Ok(next)
}

// No marks yet of so many tensors.
fn no_marks(alloc: Global, tensors: usize) -> Result<Vec<bool>, NoMemory>
    ensures { IfOk result (λ marks. marks.items ≡ replicate tensors false) }
{
    vec![in alloc; false; tensors]
}

// Marks those tensors of an order whose reads are all marked by then.
fn place_in_order(parts: &Parts, order: &[u32], marks: &mut [bool])
    requires each { length marks.now ≡ length parts.now.tensors }
    requires placed { (x : ℕ) → slice_index_or marks.now x false ≡ true → can_be_placed (plain parts.now) x ≡ true }
    ensures { (x : ℕ) → slice_index_or marks.new x false ≡ true → can_be_placed (plain parts.now) x ≡ true }
{
    for tensor in order {
        let at = *tensor as usize;
        if at < marks.len() && is_ready(parts, marks, *tensor) {
            marks[at] = true;
        }
    }
}

// Marks of tensors that can be placed: of all of them, where the order that is proposed is a good one.
fn placed_in_order(alloc: Global, parts: &Parts) -> Result<Vec<bool>, NoMemory>
    requires { length parts.now.tensors < 2 ^ 32 }
    ensures { IfOk result (λ marks. (x : ℕ) → slice_index_or marks.items x false ≡ true
        → can_be_placed (plain parts.now) x ≡ true) }
{
    let order = placing_order(alloc, parts)?;
    let mut marks = no_marks(alloc, parts.tensors.len())?;
    place_in_order(parts, &order, &mut marks);
    Ok(marks)
}

/// Which tensors can be placed: the inputs, and each local and output whose reads can all be placed. There are fewer
/// than 2^32 tensors.
pub fn placed_tensors(alloc: Global, parts: &Parts) -> Result<Vec<bool>, NoMemory>
    requires { length parts.now.tensors < 2 ^ 32 }
    ensures { IfOk result (λ placed. (x : ℕ) → slice_index_or placed.items x false
        ≡ can_be_placed (plain parts.now) x) }
{
    let mut placed = placed_in_order(alloc, parts)?;
    for round in 0..parts.tensors.len() {
        let next = next_round(alloc, parts, &placed)?;
        // A round that places nothing more is the last. It is the first one, where the order was good.
        if next.as_slice() == placed.as_slice() {
            return Ok(next);
        }
        placed = next;
    }
    Ok(placed)
}

/// Whether each tensor can be placed.
pub(crate) fn are_all_placed(alloc: Global, parts: &Parts) -> Result<bool, NoMemory>
    requires { length parts.now.tensors < 2 ^ 32 }
    ensures { IfOk result (λ all. IsTrue all ↔ ((x : ℕ) → x < length parts.now.tensors
        → can_be_placed (plain parts.now) x ≡ true)) }
{
    let placed = placed_tensors(alloc, parts)?;
    for tensor in 0..parts.tensors.len() as u32 {
        if !is_marked(&placed, tensor) {
            return Ok(false);
        }
    }
    Ok(true)
}
