ghost use Rattle.std.specs.Prelude.{◌≡◌, ◌&&◌, ◌^◌, ◌<◌, true, false, not, length, slice_index_or, IfOk};
ghost use Rattle.soda_ir.specs.Counts.{is_input, tensor_is};
ghost use Rattle.soda_ir.specs.Formula.{by_formula, every};
ghost use Rattle.soda_ir.specs.Points.{listed};
ghost use Rattle.soda_ir.specs.Program.{plain};
ghost use Rattle.soda_ir.specs.Tree.{formula_of};
ghost use Rattle.time_stages.specs.Placing.{first_below, placing_order};

use crate::NoMemory;
use soda_ir::{Expr, Parts, Program};
use std::alloc::Global;

/// The mark of a tensor, and false where there is none.
pub(crate) fn is_marked(marks: &[bool], tensor: u32) -> bool
    ensures { result ≡ slice_index_or marks.now tensor false }
{
    match marks.get(tensor as usize) {
        Some(mark) => *mark,
        None => false,
    }
}

// Whether each tensor that a formula reads is marked.
#[tactic(auto, using(soda_ir::proofs::CallerLemmas::levels))]
fn reads_marked(expr: &Expr, marks: &[bool]) -> bool
    ensures { result ≡ every (λ y o. slice_index_or marks.now y false) (formula_of expr.now) }
{
    match expr {
        Expr::Num(_) | Expr::Par { .. } => true,
        Expr::Cell { tensor, .. } => is_marked(marks, *tensor),
        Expr::Un(_, a) => reads_marked(a.get(), marks),
        Expr::Bin(_, a, b) => reads_marked(a.get(), marks) && reads_marked(b.get(), marks),
        Expr::Select(c, a, b) => {
            reads_marked(c.get(), marks)
                && reads_marked(a.get(), marks)
                && reads_marked(b.get(), marks)
        }
        Expr::Cast(_, a) => reads_marked(a.get(), marks),
    }
}

// Whether all that a tensor reads is marked.
fn is_ready(parts: &Parts, marks: &[bool], tensor: u32) -> bool
    requires { tensor < length parts.now.tensors }
    ensures { result ≡ tensor_is (λ t. by_formula t.formula true (every (λ y o. slice_index_or marks.now y false)))
        (plain parts.now) tensor }
{
    match parts.formula(tensor) {
        Some(formula) => reads_marked(formula, marks),
        None => true,
    }
}

// The first tensor that isn't marked, and all of whose reads are.
fn next_tensor(parts: &Parts, marks: &[bool]) -> Option<u32>
    requires { length parts.now.tensors < 2 ^ 32 }
    ensures { result ≡ first_below (λ x. not (slice_index_or marks.now x false)
        && tensor_is (λ t. by_formula t.formula true (every (λ y o. slice_index_or marks.now y false)))
        (plain parts.now) x) (length parts.now.tensors) }
{
    for tensor in 0..parts.tensors.len() as u32 {
        if !is_marked(marks, tensor) && is_ready(parts, marks, tensor) {
            return Some(tensor);
        }
    }
    None
}

/// Whether a tensor is an input.
pub(crate) fn is_input(parts: &Parts, tensor: u32) -> bool
    ensures { result ≡ is_input (plain parts.now) tensor }
{
    match parts.tensors.get(tensor as usize) {
        Some(tensor) => tensor.role.is_input(),
        None => false,
    }
}

/// Marks of the inputs.
pub(crate) fn inputs_marked(alloc: Global, parts: &Parts) -> Result<Vec<bool>, NoMemory>
    requires { length parts.now.tensors < 2 ^ 32 }
    ensures { IfOk result (λ marks. marks.items ≡ listed (is_input (plain parts.now)) (length parts.now.tensors)) }
{
    let mut marks = Vec::new(alloc);
    for tensor in 0..parts.tensors.len() as u32 {
        marks.push(is_input(parts, tensor))?;
    }
    Ok(marks)
}

/// The numbers of all locals and outputs in placing order: repeatedly the first, in the program's order, that isn't
/// placed and all of whose reads are of inputs or placed.
pub fn placing_order(alloc: Global, program: &Program) -> Result<Vec<u32>, NoMemory>
    ensures { IfOk result (λ order. order.items ≡ placing_order (plain program.now)) }
{
    let parts = program.parts();
    let mut order = Vec::new(alloc);
    let mut marks = inputs_marked(alloc, parts)?;
    for step in 0..parts.tensors.len() {
        let Some(tensor) = next_tensor(parts, &marks) else {
            return Ok(order);
        };
        marks[tensor as usize] = true;
        order.push(tensor)?;
    }
    Ok(order)
}
