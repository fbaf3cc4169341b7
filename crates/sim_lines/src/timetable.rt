ghost use Rattle.std.specs.Prelude.{◌≡◌, ◌<◌, ◌++◌, ℕ, IfOk, OnOk, length, slice_index_or};
ghost use Rattle.std.specs.List.{All, filter_map};
ghost use Rattle.std.specs.List.Sorted.{IsNonDecreasingBy};
ghost use Rattle.net_ir.specs.declared.network.Module.{Module};
ghost use Rattle.sim_lines.specs.Flags.{end_of, is_stalled, tensor_at};
ghost use Rattle.sim_lines.specs.Timetable.{is_stalled_in};
ghost use Rattle.sim_lines.specs.machine.Ends.{all_stalled, end_at, ends_before, stalled_by};

use crate::NoMemory;
use crate::stall::Stall;
use crate::stalled::{ModuleEnd, StalledModule};
use net_ir::Module;
use std::alloc::Global;
use time_stages::StagedTensor;

// The tensor of the program that a staged tensor is, by its number.
fn tensor_at(staged: &[StagedTensor], number: u32) -> Option<u32>
    ensures { result ≡ tensor_at staged.now number }
{
    match staged.get(number as usize) {
        Some(staged) => Some(staged.tensor),
        None => None,
    }
}

// The tensor of the program that a module is the end of.
fn end_of(staged: &[StagedTensor], module: Module) -> Option<u32>
    ensures { result ≡ end_of staged.now «module» }
{
    match module {
        Module::Source { tensor } | Module::Sink { tensor } => tensor_at(staged, tensor),
        Module::Forward { .. } | Module::Compute { .. } => None,
    }
}

// Adds the end that a module is, if it is one.
fn add_end(
    ends: &mut Vec<ModuleEnd>,
    staged: &[StagedTensor],
    number: usize,
    module: Module,
) -> Result<(), NoMemory>
    ensures { OnOk result (ends.new.items ≡ ends.old.items ++ end_at staged.now number «module») }
{
    if let Some(tensor) = end_of(staged, module) {
        ends.push(ModuleEnd { tensor, number })?;
    }
    Ok(())
}

// The ends among modules.
fn ends_of(
    alloc: Global,
    staged: &[StagedTensor],
    modules: &[Module],
) -> Result<Vec<ModuleEnd>, NoMemory>
    ensures { IfOk result (λ ends. ends.items ≡ ends_before staged.now modules.now (length modules.now)) }
{
    let mut ends = Vec::new(alloc);
    for (number, module) in modules.iter().enumerate() {
        add_end(&mut ends, staged, number, *module)?;
    }
    Ok(ends)
}

// Adds what a stall stalls of the ends.
fn add_stall(
    stalled: &mut Vec<StalledModule>,
    ends: &[ModuleEnd],
    stall: Stall,
) -> Result<(), NoMemory>
    ensures { OnOk result (stalled.new.items ≡ stalled.old.items ++ filter_map (stalled_by stall) ends.now) }
{
    for end in ends {
        if stall.tensor == end.tensor {
            stalled.push(StalledModule {
                cycle: stall.cycle,
                number: end.number,
            })?;
        }
    }
    Ok(())
}

// What stalls stall of the ends, in the order of the stalls.
fn by_stall(
    alloc: Global,
    ends: &[ModuleEnd],
    stalls: &[Stall],
) -> Result<Vec<StalledModule>, NoMemory>
    ensures { IfOk result (λ stalled. stalled.items ≡ all_stalled ends.now stalls.now) }
{
    let mut stalled = Vec::new(alloc);
    for stall in stalls {
        add_stall(&mut stalled, ends, *stall)?;
    }
    Ok(stalled)
}

// The stalls of modules, rising by cycle.
pub(crate) fn by_cycle(
    alloc: Global,
    stalls: &[Stall],
    modules: &[Module],
    staged: &[StagedTensor],
) -> Result<Vec<StalledModule>, NoMemory>
    ensures stalled { IfOk result (λ stalled. (cycle m : ℕ) (d : Module) → m < length modules.now
        → is_stalled_in stalled.items cycle m
        ≡ is_stalled staged.now stalls.now cycle (slice_index_or modules.now m d)) }
    ensures known { IfOk result (λ stalled. All (λ s. s.number < length modules.now) stalled.items) }
    ensures rising { IfOk result (λ stalled. IsNonDecreasingBy (λ s. s.cycle) stalled.items) }
{
    let ends = ends_of(alloc, staged, modules)?;
    let mut stalled = by_stall(alloc, &ends, stalls)?;
    stalled.sort_unstable_by_key(|entry| entry.cycle);
    Ok(stalled)
}
