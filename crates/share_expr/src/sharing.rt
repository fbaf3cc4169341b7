ghost use Rattle.std.specs.Prelude.{◌≡◌, ◌<◌, ℕ, ℤ, List, length, suc, slice_index_or, Some, None, IfOk, IfErr};
ghost use Rattle.soda_ir.specs.declared.limit.LimitKind.{LimitKind};
ghost use Rattle.soda_ir.specs.Program.{plain};
ghost use Rattle.soda_ir.specs.Valid.{IsSound, IsValid};
ghost use Rattle.soda_eval.specs.Runs.{defined_arrays};
ghost use Rattle.share_shape.specs.Compounds.{Site, sites};
ghost use Rattle.share_shape.specs.Limits.{limit_passed};
ghost use Rattle.share_shape.specs.Procedure.{shared};
ghost use Rattle.share_shape.specs.Shifts.{IsShiftEqual};
ghost use Rattle.share_expr.specs.Working.{with_tensors};

use crate::NoMemory;
use crate::copies::{copy_tensors, with_tensors};
use crate::limits::limit_passed;
use crate::step::next_step;
use soda_ir::{LimitKind, MakeRefusal, Parts, Program, Tensor};
use std::alloc::Global;
use thiserror::Error;

/// Why a program is not shared.
#[derive(Clone, Copy, Debug, Error)]
pub enum ShareRefusal {
    /// The shared program passes a limit, by this number.
    #[error("a limit is passed")]
    Limit(LimitKind, u128),
    /// Memory was refused.
    #[error("out of memory")]
    Memory,
}

// The tensors after all steps.
fn all_steps(alloc: Global, parts: &Parts, tensors: Vec<Tensor>) -> Result<Vec<Tensor>, NoMemory>
    requires { IsSound (with_tensors parts.now tensors.items) }
    ensures { IfOk result (λ ts. with_tensors parts.now ts.items ≡ shared (with_tensors parts.now tensors.items)) }
{
    let mut tensors = tensors;
    let mut from = 0;
    while let Some(step) = next_step(alloc, parts, tensors.as_slice(), from)? {
        tensors = step.tensors;
        from = step.from;
    }
    Ok(tensors)
}

// The parts of the shared program.
fn shared_parts(alloc: Global, parts: &Parts) -> Result<Parts, NoMemory>
    requires { IsSound (plain parts.now) }
    ensures { IfOk result (λ p. plain p ≡ shared (plain parts.now)) }
{
    let tensors = copy_tensors(alloc, parts.tensors.as_slice())?;
    let tensors = all_steps(alloc, parts, tensors)?;
    with_tensors(alloc, parts, tensors)
}

// The program of valid parts.
fn made(alloc: Global, parts: Parts) -> Result<Program, ShareRefusal>
    requires { IsValid (plain parts) }
    ensures made { IfOk result (λ made. made ≡ parts) }
    ensures memory { IfErr result (λ e. e ≡ ShareRefusal.Memory) }
{
    match Program::make(alloc, parts) {
        Ok(program) => Ok(program),
        Err(MakeRefusal::Invalid) => unreachable!(),
        Err(MakeRefusal::Memory) => Err(ShareRefusal::Memory),
    }
}

/// The program in which shift-equal compounds are read from locals: until no two compounds are shift-equal, the first
/// of those that are shift-equal to another, and all these others, become cells of a local that stands just before the
/// statement with the first. Its output arrays are those of the program. `Limit` comes exactly where the shared
/// program passes one of the limits `offset`, `tensors`, `live` and `reads`, with the first of them in this order and
/// the number that passes it.
pub fn share(alloc: Global, program: &Program) -> Result<Program, ShareRefusal>
    ensures shared { IfOk result (λ made. plain made ≡ shared (plain program.now)) }
    ensures within { IfOk result (λ made. limit_passed (shared (plain program.now)) ≡ None) }
    ensures limit { (kind : LimitKind) (number : ℕ) → result ≡ Err (ShareRefusal.Limit kind number)
        → limit_passed (shared (plain program.now)) ≡ Some (record { kind = kind; number = number }) }
    ensures arrays { IfOk result (λ made. (rows : ℕ) (params : List ℤ) (inputs : List (List ℤ))
        → defined_arrays (plain made) rows params inputs ≡ defined_arrays (plain program.now) rows params inputs) }
    ensures none_left { IfOk result (λ made. (s : Site) (i j : ℕ) → i < j → j < length (sites (plain made))
        → IsShiftEqual (suc (length made.extents)) (slice_index_or (sites (plain made)) i s).compound
        (slice_index_or (sites (plain made)) j s).compound → ⊥) }
{
    let Ok(parts) = shared_parts(alloc, program.parts()) else {
        return Err(ShareRefusal::Memory);
    };
    match limit_passed(alloc, &parts) {
        Ok(None) => made(alloc, parts),
        Ok(Some((kind, number))) => {
            drop(parts);
            Err(ShareRefusal::Limit(kind, number))
        }
        Err(_) => {
            drop(parts);
            Err(ShareRefusal::Memory)
        }
    }
}
