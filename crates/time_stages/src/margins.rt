ghost use Rattle.std.specs.Prelude.{◌≡◌, ◌+◌, ◌*◌, ◌^◌, ◌<◌, ◌≤◌, ℕ, pos, length, replicate, slice_index_or, IfOk};
ghost use Rattle.soda_ir.specs.Counts.{formula_in};
ghost use Rattle.soda_ir.specs.Formula.{by_formula};
ghost use Rattle.soda_ir.specs.Points.{listed};
ghost use Rattle.soda_ir.specs.Program.{plain};
ghost use Rattle.soda_ir.specs.Tree.{formula_of};
ghost use Rattle.soda_words.specs.Limits.{most_offset, most_tensors};
ghost use Rattle.time_stages.specs.Margins.{AreMargins, dims_of, margins_over, no_margins};
ghost use Rattle.time_stages.specs.Placing.{placing_order};
ghost use Rattle.time_stages.specs.pieces.Numbers.{
  formula_number,
  margins_made,
  number_at,
  number_needed,
  numbers_of,
  side_of,
};

use crate::NoMemory;
use soda_ir::{Expr, Parts, Program};
use sqlite_items::Items;
use std::alloc::Global;

/// How far the region of a tensor keeps from the sides of the box: in cells, one number a dimension, from the first
/// dimension on.
#[derive(Drop)]
pub struct Margins {
    /// From the first points.
    pub low: Items<u64>,
    /// From the last points.
    pub high: Items<u64>,
}

// The two sides of a dimension.
#[derive(Clone, Copy)]
enum Side {
    Low,
    High,
}

// The margins on a side.
fn side_of(side: Side, margins: &Margins) -> &[u64]
    ensures { result.now ≡ side_of side margins.now }
{
    match side {
        Side::Low => margins.low.as_slice(),
        Side::High => margins.high.as_slice(),
    }
}

// The number at a place, and 0 past the last.
fn at_or_none(numbers: &[u64], at: usize) -> u64
    ensures { result ≡ slice_index_or numbers.now at 0 }
{
    match numbers.get(at) {
        Some(number) => *number,
        None => 0,
    }
}

// The component of a dimension, and 0 past the last.
fn component(offset: &[i64], dim: usize) -> i64
    ensures { result ≡ slice_index_or offset.now dim (pos 0) }
{
    match offset.get(dim) {
        Some(d) => *d,
        None => 0,
    }
}

// What a reader at this component needs of a number: it less the component on the low side, and with it on the other,
// or 0 where that is less.
fn number_needed(side: Side, number: u64, component: i64) -> u64
    requires { number ≤ 2 ^ 40 }
    ensures { result ≡ number_needed side number component }
{
    let far = component.unsigned_abs();
    match side {
        Side::Low => if component < 0 {
            number + far
        } else {
            number.saturating_sub(far)
        },
        Side::High => if component < 0 {
            number.saturating_sub(far)
        } else {
            number + far
        },
    }
}

// The margin of a tensor on a side, in one dimension, and 0 where there is none.
fn margin_at(made: &[Margins], side: Side, dim: usize, tensor: u32) -> u64
    ensures { result ≡ slice_index_or (side_of side (slice_index_or made.now tensor (no_margins 0))) dim 0 }
{
    match made.get(tensor as usize) {
        Some(margins) => at_or_none(side_of(side, margins), dim),
        None => 0,
    }
}

// What a reader of a tensor at an offset needs on a side, in one dimension.
fn number_at(made: &[Margins], side: Side, dim: usize, tensor: u32, offset: &[i64]) -> u64
    requires { (y d : ℕ) → slice_index_or (side_of side (slice_index_or made.now y (no_margins 0))) d 0 ≤ 2 ^ 40 }
    ensures { result ≡ number_at made.now side dim tensor offset.now }
{
    number_needed(
        side,
        margin_at(made, side, dim, tensor),
        component(offset, dim),
    )
}

// The greatest number that the reads of a formula need on a side, in one dimension.
#[tactic(auto, using(soda_ir::proofs::CallerLemmas::levels))]
fn formula_number(expr: &Expr, made: &[Margins], side: Side, dim: usize) -> u64
    requires { (y d : ℕ) → slice_index_or (side_of side (slice_index_or made.now y (no_margins 0))) d 0 ≤ 2 ^ 40 }
    ensures { result ≡ formula_number (number_at made.now side dim) (formula_of expr.now) }
{
    match expr {
        Expr::Num(_) | Expr::Par { .. } => 0,
        Expr::Cell { tensor, offset } => {
            let _dims = offset.len();
            number_at(made, side, dim, *tensor, offset.as_slice())
        }
        Expr::Un(_, a) => formula_number(a.get(), made, side, dim),
        Expr::Bin(_, a, b) => {
            formula_number(a.get(), made, side, dim).max(formula_number(b.get(), made, side, dim))
        }
        Expr::Select(c, a, b) => {
            let chosen = formula_number(a.get(), made, side, dim).max(formula_number(
                b.get(),
                made,
                side,
                dim,
            ));
            formula_number(c.get(), made, side, dim).max(chosen)
        }
        Expr::Cast(_, a) => formula_number(a.get(), made, side, dim),
    }
}

// The numbers that the reads of a formula need on a side, in so many dimensions.
fn numbers_of(
    alloc: Global,
    expr: &Expr,
    made: &[Margins],
    side: Side,
    dims: usize,
) -> Result<Items<u64>, NoMemory>
    requires { (y d : ℕ) → slice_index_or (side_of side (slice_index_or made.now y (no_margins 0))) d 0 ≤ 2 ^ 40 }
    ensures { IfOk result (λ numbers. numbers ≡ numbers_of made.now side dims (formula_of expr.now)) }
{
    let mut numbers = Vec::new(alloc);
    for dim in 0..dims {
        numbers.push(formula_number(expr, made, side, dim))?;
    }
    Ok(Items::from_vec(numbers))
}

// The margins that the reads of a formula need.
fn formula_margins(
    alloc: Global,
    expr: &Expr,
    made: &[Margins],
    dims: usize,
) -> Result<Margins, NoMemory>
    requires { (side : Side) (y d : ℕ) → slice_index_or (side_of side (slice_index_or made.now y (no_margins 0))) d 0
        ≤ 2 ^ 40 }
    ensures { IfOk result (λ m. m ≡ margins_made made.now dims (formula_of expr.now)) }
{
    let low = numbers_of(alloc, expr, made, Side::Low, dims)?;
    let high = numbers_of(alloc, expr, made, Side::High, dims)?;
    Ok(Margins { low, high })
}

// No margins in so many dimensions.
fn no_margins(alloc: Global, dims: usize) -> Result<Margins, NoMemory>
    ensures { IfOk result (λ m. m ≡ no_margins dims) }
{
    let low = Items::from_vec(vec![in alloc; 0; dims]?);
    let high = Items::from_vec(vec![in alloc; 0; dims]?);
    Ok(Margins { low, high })
}

/// A copy.
pub(crate) fn copied(alloc: Global, margins: &Margins) -> Result<Margins, NoMemory>
    ensures { IfOk result (λ m. m ≡ margins.now) }
{
    let low = Items::from_slice(alloc, margins.low.as_slice())?;
    let high = Items::from_slice(alloc, margins.high.as_slice())?;
    Ok(Margins { low, high })
}

// The margins of an input, and none past the last.
fn input_margins(
    alloc: Global,
    inputs: &[Margins],
    input: u32,
    dims: usize,
) -> Result<Margins, NoMemory>
    ensures { IfOk result (λ m. m ≡ slice_index_or inputs.now input (no_margins dims)) }
{
    match inputs.get(input as usize) {
        Some(margins) => copied(alloc, margins),
        None => no_margins(alloc, dims),
    }
}

// The margins of the inputs, at the numbers of all tensors.
fn starting_margins(
    alloc: Global,
    inputs: &[Margins],
    dims: usize,
    tensors: usize,
) -> Result<Vec<Margins>, NoMemory>
    requires { tensors < 2 ^ 32 }
    ensures { IfOk result (λ made. made.items ≡ listed (λ x. slice_index_or inputs.now x (no_margins dims)) tensors) }
{
    let mut made = Vec::new(alloc);
    for tensor in 0..tensors as u32 {
        made.push(input_margins(alloc, inputs, tensor, dims)?)?;
    }
    Ok(made)
}

// The margins of a tensor, where those that it reads are made.
fn tensor_margins(
    alloc: Global,
    parts: &Parts,
    inputs: &[Margins],
    made: &[Margins],
    tensor: u32,
    dims: usize,
) -> Result<Margins, NoMemory>
    requires { (side : Side) (y d : ℕ) → slice_index_or (side_of side (slice_index_or made.now y (no_margins 0))) d 0
        ≤ 2 ^ 40 }
    ensures { IfOk result (λ m. m ≡ by_formula (formula_in (plain parts.now) tensor)
        (slice_index_or inputs.now tensor (no_margins dims)) (margins_made made.now dims)) }
{
    match parts.formula(tensor) {
        Some(formula) => formula_margins(alloc, formula, made, dims),
        None => input_margins(alloc, inputs, tensor, dims),
    }
}

/// The margins of every tensor, in number order, where these are those of the inputs; an input that none are given for
/// has none. The order is the placing order. No margin of an input is above 2^39, and none of a tensor is more than
/// 2^24 above the greatest of the inputs'.
pub fn margins_over(
    alloc: Global,
    program: &Program,
    order: &[u32],
    inputs: &[Margins],
) -> Result<Vec<Margins>, NoMemory>
    requires order { order.now ≡ placing_order (plain program.now) }
    requires inputs { (j : ℕ) → AreMargins (dims_of (plain program.now)) (2 ^ 39)
        (slice_index_or inputs.now j (no_margins (dims_of (plain program.now)))) }
    ensures value { IfOk result (λ made. made.items ≡ listed (λ x. margins_over (plain program.now)
        (λ j. slice_index_or inputs.now j (no_margins (dims_of (plain program.now))))
        (length program.now.tensors) x) (length program.now.tensors)) }
    ensures most { (most : ℕ) → ((j : ℕ) → AreMargins (dims_of (plain program.now)) most
        (slice_index_or inputs.now j (no_margins (dims_of (plain program.now)))))
        → IfOk result (λ made. (x : ℕ) → AreMargins (dims_of (plain program.now)) (most + most_offset * most_tensors)
        (slice_index_or made.items x (no_margins (dims_of (plain program.now))))) }
{
    let parts = program.parts();
    let dims = parts.extents.len() + 1;
    let mut made = starting_margins(alloc, inputs, dims, parts.tensors.len())?;
    for tensor in order {
        let margins = tensor_margins(alloc, parts, inputs, &made, *tensor, dims)?;
        made[*tensor as usize] = margins;
    }
    Ok(made)
}
