ghost use Rattle.std.specs.Prelude.{◌≡◌, ◌≤◌, ◌<◌, ◌^◌, ◌+ℤ◌, ◌<ℤ◌, ℤ, List, Some, IfOk, false, pos, length, slice_get};
ghost use Rattle.soda_words.specs.Limits.{most_cells};
ghost use Rattle.int_types.specs.Ranges.{wrapped};
ghost use Rattle.soda_ir.specs.Counts.{is_input};
ghost use Rattle.soda_ir.specs.Program.{extents_at, plain};
ghost use Rattle.soda_eval.specs.Runs.{HasValues, cells_at, place_types};
ghost use Rattle.time_stages.specs.declared.staging.StagedTensor.{StagedTensor};
ghost use Rattle.time_stages.specs.Staged.{staged, staged_tensors, type_of};
ghost use Rattle.staged_cells.specs.Cells.{inner_cell, outer_cell, port_types};
ghost use Rattle.staged_cells.specs.Sends.{computed, wrapped_ports};
ghost use Rattle.compute_modules.specs.Modules.{count_of, place_of, step_of, value_of};
ghost use Rattle.compute_modules.specs.pieces.Formulas.{code_value};
ghost use Rattle.compute_modules.specs.pieces.Taps.{border_taken};
ghost use Rattle.compute_modules.specs.pieces.Walks.{box, number_at, sides_of};

use crate::NoMemory;
use crate::formula::PortFormula;
use crate::side::Spot;
use crate::tap::{Tap, border_tap, count_ports, read_taps, type_of};
use crate::walk::Walk;
use formula_code::compile;
use int_types::wrap;
use soda_eval::formulas_are_readable;
use soda_ir::Program;
use soda_words::Ty;
use sqlite_items::Items;
use staged_cells::{Unit, formulas_read_ports, stages_have_dimensions};
use std::alloc::Global;
use time_stages::{Staged, StagedTensor};

/// A computing module: the compiled formula of a staged tensor with the port of each of its reads, and the cell that
/// its next firing is about.
#[derive(Drop)]
pub struct ComputeModule {
    ty: Ty,
    formula: PortFormula,
    border: Option<Tap>,
    walk: Walk,
    ports: usize,
}

// What is at the tap of a border, and 0 where there is none.
fn border_value(border: &Option<Tap>, ports: &[i128]) -> i128
    ensures { result ≡ border_taken border.now ports.now }
{
    match border {
        Some(tap) => tap.take(ports),
        None => 0,
    }
}

// The formula of a staged tensor that is no input, compiled, with its taps.
fn port_formula(
    alloc: Global,
    program: &Program,
    staging: &Staged,
    params: &[i128],
    number: u32,
    stage: &StagedTensor,
) -> Result<PortFormula, NoMemory>
    requires staging { staging.now ≡ staged (plain program.now) }
    requires params { HasValues (place_types (plain program.now).params) params.now }
    requires tensor { slice_get (staged_tensors (plain program.now)) number ≡ Some stage.now }
    requires local { is_input (plain program.now) stage.now.tensor ≡ false }
    ensures { IfOk result (λ made. (ports : List ℤ)
        → wrapped (type_of (plain program.now) stage.now.tensor) (code_value made.code made.taps.items ports)
        ≡ inner_cell (plain program.now) params.now number stage.now (wrapped_ports (plain program.now) number ports)) }
{
    let _ = program.parts();
    formulas_read_ports();
    formulas_are_readable();
    match compile(alloc, program, stage.tensor, params) {
        Ok(Some(code)) => {
            let reads = code.wide.reads.as_slice();
            match read_taps(alloc, program, staging, number, stage.turn, reads) {
                Ok(taps) => PortFormula::new(alloc, code, taps),
                Err(refused) => {
                    drop(code);
                    Err(refused)
                }
            }
        }
        Ok(None) => unreachable!(),
        Err(refused) => Err(refused),
    }
}

// The tap of what stands outside the region of a staged tensor, if it isn't 0.
fn border_of(program: &Program, staging: &Staged, number: u32, stage: &StagedTensor) -> Option<Tap>
    requires staging { staging.now ≡ staged (plain program.now) }
    requires tensor { slice_get (staged_tensors (plain program.now)) number ≡ Some stage.now }
    ensures { (ports : List ℤ) → border_taken result ports ≡ outer_cell (plain program.now) number stage.now
        (wrapped_ports (plain program.now) number ports) }
{
    let _ = program.parts();
    formulas_read_ports();
    border_tap(program, staging, number, stage.turn, stage.tensor)
}

// The walk over the cells of a staged tensor.
fn walk_of(
    alloc: Global,
    program: &Program,
    rows: u64,
    number: u32,
    stage: &StagedTensor,
    first: i64,
    step: u32,
) -> Result<Walk, NoMemory>
    requires small { cells_at (plain program.now) rows ≤ most_cells }
    requires tensor { slice_get (staged_tensors (plain program.now)) number ≡ Some stage.now }
    ensures sides { IfOk result (λ walk. box walk.sides.items
        ≡ sides_of (extents_at (plain program.now) rows) stage.now.low stage.now.high) }
    ensures place { IfOk result (λ walk. number_at walk.at walk.early ≡ first) }
    ensures step { IfOk result (λ walk. walk.step ≡ step) }
{
    stages_have_dimensions();
    let mut extents = Items::from_slice(alloc, program.parts().extents.as_slice())?;
    extents.push(rows)?;
    Walk::new(
        alloc,
        extents.as_slice(),
        stage.low.as_slice(),
        stage.high.as_slice(),
        first,
        step,
    )
}

impl ComputeModule {
    /// The computing module of a staged tensor, about to fire for the cell of the number `first`, and then each time
    /// for the cell that stands `step` behind. The staged program is that of the program, an array has at most
    /// `most_cells` cells, `params` has the values of all params in order, in range, and the tensor is no input.
    pub fn new(
        alloc: Global,
        program: &Program,
        staging: &Staged,
        rows: u64,
        params: &[i128],
        tensor: u32,
        first: i64,
        step: u32,
    ) -> Result<ComputeModule, NoMemory>
        requires staging { staging.now ≡ staged (plain program.now) }
        requires small { cells_at (plain program.now) rows ≤ most_cells }
        requires params { HasValues (place_types (plain program.now).params) params.now }
        requires tensor { (s : StagedTensor) × (slice_get (staged_tensors (plain program.now)) tensor ≡ Some s)
            × (is_input (plain program.now) s.tensor ≡ false) }
        ensures value { IfOk result (λ made. (ports : List ℤ) (z : ℤ) → value_of made ports z
            ≡ computed (plain program.now) rows params.now tensor ports z) }
        ensures place { IfOk result (λ made. place_of made ≡ first) }
        ensures step { IfOk result (λ made. step_of made ≡ step) }
        ensures count { IfOk result (λ made. count_of made ≡ length (port_types (plain program.now) tensor)) }
    {
        stages_have_dimensions();
        let stage = &staging.tensors.as_slice()[tensor as usize];
        let ty = type_of(program.parts(), stage.tensor);
        let formula = port_formula(alloc, program, staging, params, tensor, stage)?;
        match walk_of(alloc, program, rows, tensor, stage, first, step) {
            Ok(walk) => Ok(ComputeModule {
                ty,
                formula,
                border: border_of(program, staging, tensor, stage),
                walk,
                ports: count_ports(staging.reads.as_slice(), tensor),
            }),
            Err(refused) => {
                drop(formula);
                Err(refused)
            }
        }
    }

    // What the module sends for its cell.
    fn sent(&mut self, ports: &[i128]) -> i128
        ensures sent { result ≡ value_of self.old ports.now (place_of self.old) }
        ensures value { value_of self.new ≡ value_of self.old }
        ensures walk { self.new.walk ≡ self.old.walk }
        ensures count { count_of self.new ≡ count_of self.old }
    {
        match self.walk.spot() {
            Spot::Nowhere => 0,
            Spot::Inside => wrap(self.ty, self.formula.value(ports)),
            Spot::Outside => border_value(&self.border, ports),
        }
    }
}

impl Unit for ComputeModule {
    ghost value = { value_of };

    ghost place = { place_of };

    ghost step = { step_of };

    ghost count = { count_of };

    fn make(
        alloc: Global,
        program: &Program,
        staging: &Staged,
        rows: u64,
        params: &[i128],
        tensor: u32,
        first: i64,
        stride: u32,
    ) -> Result<ComputeModule, NoMemory> {
        ComputeModule::new(alloc, program, staging, rows, params, tensor, first, stride)
    }

    fn next(&mut self, ports: &[i128]) -> i128 {
        let value = self.sent(ports);
        self.walk.go_on();
        value
    }
}
