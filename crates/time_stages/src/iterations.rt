ghost use Rattle.std.specs.Prelude.{◌≡◌, ℕ, ◌<◌, suc, [], length, map, slice_index_or, IfOk, if◌then◌else◌};
ghost use Rattle.soda_ir.specs.Program.{outputs_of, plain, preserves};
ghost use Rattle.soda_ir.specs.Valid.{IsSound};
ghost use Rattle.time_stages.specs.Margins.{AreMade, no_margins};
ghost use Rattle.time_stages.specs.Placing.{placing_order};

use crate::NoMemory;
use crate::margins::{Margins, copied, margins_over};
use soda_ir::{Parts, Program};
use std::alloc::Global;

// The margins of these tensors, in order.
fn margins_at(alloc: Global, numbers: &[u32], margins: &[Margins]) -> Result<Vec<Margins>, NoMemory>
    requires { (j : ℕ) → j < length numbers.now → slice_index_or numbers.now j 0 < length margins.now }
    ensures { IfOk result (λ found. found.items ≡ map (λ x. slice_index_or margins.now x (no_margins 0)) numbers.now) }
{
    let mut found = Vec::new(alloc);
    for number in numbers {
        found.push(copied(alloc, &margins[*number as usize])?)?;
    }
    Ok(found)
}

// The margins of the inputs of the next iteration: none under preserve, and else those of the outputs.
fn next_inputs(
    alloc: Global,
    parts: &Parts,
    outputs: &[u32],
    margins: &[Margins],
) -> Result<Vec<Margins>, NoMemory>
    requires { (j : ℕ) → j < length outputs.now → slice_index_or outputs.now j 0 < length margins.now }
    ensures { IfOk result (λ inputs. inputs.items ≡ (if preserves (plain parts.now) then []
        else map (λ x. slice_index_or margins.now x (no_margins 0)) outputs.now)) }
{
    if parts.is_preserved() {
        Ok(Vec::new(alloc))
    } else {
        margins_at(alloc, outputs, margins)
    }
}

/// The margins of all tensors in the first iteration, in number order. The order is the placing order, and the program
/// is sound. The only error is want of memory.
pub fn first_margins(
    alloc: Global,
    program: &Program,
    order: &[u32],
) -> Result<Vec<Margins>, NoMemory>
    requires sound { IsSound (plain program.now) }
    requires order { order.now ≡ placing_order (plain program.now) }
    ensures { IfOk result (λ margins. AreMade (plain program.now) 0 margins.items) }
{
    let margins = margins_over(alloc, program, order, &[])?;
    Ok(margins)
}

/// The margins of all tensors in the next iteration, in number order, from those of one that isn't the last. The order
/// is the placing order, the outputs are in number order, and the program is sound. The only error is want of memory.
pub fn next_margins(
    alloc: Global,
    program: &Program,
    order: &[u32],
    outputs: &[u32],
    margins: &[Margins],
) -> Result<Vec<Margins>, NoMemory>
    requires sound { IsSound (plain program.now) }
    requires order { order.now ≡ placing_order (plain program.now) }
    requires outputs { outputs.now ≡ outputs_of (plain program.now) }
    requires made { (t : ℕ) × (suc t < (plain program.now).iterate) × AreMade (plain program.now) t margins.now }
    ensures { (t : ℕ) → AreMade (plain program.now) t margins.now
        → IfOk result (λ next. AreMade (plain program.now) (suc t) next.items) }
{
    let inputs = next_inputs(alloc, program.parts(), outputs, margins)?;
    let next = margins_over(alloc, program, order, &inputs)?;
    Ok(next)
}
