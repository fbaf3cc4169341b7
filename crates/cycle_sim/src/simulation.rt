ghost use Rattle.std.specs.Prelude.{◌≡◌, ◌≤◌, ◌++◌, ◌∷◌, [], ℕ, Bool, List, length, slice_index, IfErr, IfOk, IsTrue, OnOk, false, ◌↔◌};
ghost use Rattle.soda_ir.specs.Counts.{count_below, is_output};
ghost use Rattle.soda_ir.specs.Program.{input_types, plain};
ghost use Rattle.time_stages.specs.Staged.{staged};
ghost use Rattle.net_build.specs.Limits.{greatest_delay, most_delay};
ghost use Rattle.net_ir.specs.States.{IsFinished};
ghost use Rattle.net_ir.specs.CycleRun.{EndsWith, cycle, fired_among, held_among};
ghost use Rattle.net_cycles.specs.Between.{between, fired_once};
ghost use Rattle.net_cycles.specs.Cycles.{FiresAt, HasRun};
ghost use Rattle.net_cycles.specs.Holdings.{held_below, storage_below};
ghost use Rattle.cycle_sim.specs.Ending.{AreEnding};
ghost use Rattle.cycle_sim.specs.Fresh.{AreFresh};
ghost use Rattle.cycle_sim.specs.Handles.{HaveHandles};
ghost use Rattle.cycle_sim.specs.Onward.{Onward};
ghost use Rattle.cycle_sim.specs.Paths.{settings};
ghost use Rattle.cycle_sim.specs.Running.{IsRun};
ghost use Rattle.cycle_sim.specs.Settings.{IsSettings, array_cells, net_in, plan_in};
ghost use Rattle.cycle_sim.specs.Stopped.{IsStopped};
ghost use Rattle.cycle_sim.specs.Unended.{StopsEnding};

use crate::laws::queues_of_a_run_have_room;
use crate::path::FilePath;
use crate::{Stop, Unit};
use net_build::{firings, firings_are_rounded_up};
use net_cycles::Pipeline;
use net_ir::{CycleCount, Network};
use soda_io::Files;
use std::alloc::{AllocError as NoMemory, Global};
use time_stages::Staged;

/// The network of a program, which runs in cycles over files.
#[derive(Drop)]
pub struct Simulation<U> {
    pipeline: Pipeline,
    path: FilePath<U>,
}

impl<U: Unit + Drop> Simulation<U> {
    /// The network of a program over files, with nothing done. `path` is what it is about, and has no modules yet; `cells`
    /// is how many cells an array has, and no delay passes its limit.
    ///
    /// `inputs` are the ids of the inputs' files in order, fresh from `open`, `outputs` those of the outputs', fresh from
    /// `create`. No two are equal, and the name of a created one is that of no other.
    pub fn new<F: Files>(
        alloc: Global,
        files: &F,
        network: Network,
        staging: &Staged,
        mut path: FilePath<U>,
        cells: u64,
        inputs: &[u32],
        outputs: &[u32],
    ) -> Result<Simulation<U>, NoMemory>
        requires settings { IsSettings (settings path) }
        requires going { path.stopped ≡ false }
        requires network { network ≡ net_in (settings path) }
        requires staging { staging.now ≡ staged (plain path.program) }
        requires cells { cells ≡ array_cells (settings path) }
        requires delays { greatest_delay (plan_in (settings path)) ≤ most_delay }
        requires inputs { length inputs.now ≡ length (input_types (plain path.program).tensors) }
        requires outputs { length outputs.now ≡ count_below (is_output (plain path.program))
            (length (plain path.program).tensors) }
        requires fresh { AreFresh F.tells inputs.now outputs.now (F.given files.now) (F.store files.now) }
        ensures settings { IfOk result (λ s. settings s.path ≡ settings path) }
        ensures going { IfOk result (λ s. s.path.stopped ≡ false) }
        ensures handles { IfOk result (λ s. HaveHandles (settings path) inputs.now outputs.now
            s.path.stations.items) }
        ensures run { IfOk result (λ s. IsRun F.tells
            (record { value = U.value; place = U.place; step = U.step; count = U.count }) (settings path)
            (F.given files.now) (F.store files.now) s.path.stations.items s.pipeline) }
        ensures none { IfOk result (λ s. HasRun s.pipeline.network s.pipeline.firings [] s.pipeline.fired) }
    {
        queues_of_a_run_have_room();
        let firings = firings(path.rows, &path.program, &path.delays);
        match path.begin(alloc, files, &network, staging, cells, inputs, outputs) {
            Ok(()) => {}
            Err(error) => {
                drop(path);
                drop(network);
                return Err(error);
            }
        }
        match Pipeline::new(alloc, network, firings) {
            Ok(pipeline) => Ok(Simulation { pipeline, path }),
            Err(error) => {
                drop(path);
                Err(error)
            }
        }
    }
}

impl<U: Unit> Simulation<U> {
    /// Does one cycle: each module is visited once, in firing order, and fires wholly where it isn't stalled, has a
    /// firing left and each event of the firing is possible. There is a flag for each module.
    pub fn cycle<F: Files>(&mut self, files: &mut F, stalled: &[bool]) -> Result<CycleCount, Stop>
        requires flags { length stalled.now ≡ length self.old.pipeline.network.modules }
        requires going { self.old.path.stopped ≡ false }
        requires run { IsRun F.tells (record { value = U.value; place = U.place; step = U.step; count = U.count })
            (settings self.old.path) (F.given files.old) (F.store files.old) self.old.path.stations.items
            self.old.pipeline }

        ensures run { OnOk result (IsRun F.tells
            (record { value = U.value; place = U.place; step = U.step; count = U.count }) (settings self.new.path)
            (F.given files.new) (F.store files.new) self.new.path.stations.items self.new.pipeline) }
        ensures going { OnOk result (self.new.path.stopped ≡ false) }
        ensures kept { OnOk result (F.faults files.new ≡ F.faults files.old) }
        ensures network { self.new.pipeline.network ≡ self.old.pipeline.network }
        ensures firings { self.new.pipeline.firings ≡ self.old.pipeline.firings }
        ensures state { OnOk result (between self.new.pipeline.fired
            ≡ cycle self.old.pipeline.network self.old.pipeline.firings stalled.now
            (between self.old.pipeline.fired)) }
        ensures stalls { OnOk result ((stalls : List (List Bool))
            → HasRun self.old.pipeline.network self.old.pipeline.firings stalls self.old.pipeline.fired
            → ¬ IsFinished self.old.pipeline.network self.old.pipeline.firings (between self.old.pipeline.fired)
            → HasRun self.new.pipeline.network self.new.pipeline.firings (stalls ++ stalled.now ∷ [])
            self.new.pipeline.fired) }
        ensures fired { IfOk result (λ count. count.fired ≡ fired_among self.old.pipeline.network
            self.old.pipeline.firings stalled.now (between self.old.pipeline.fired)
            (length self.old.pipeline.network.modules)) }
        ensures held { IfOk result (λ count. count.held ≡ held_among self.old.pipeline.network
            self.old.pipeline.firings stalled.now (between self.old.pipeline.fired)
            (length self.old.pipeline.network.modules)) }
        ensures onward { Onward F.tells (settings self.old.path) (settings self.new.path) (F.given files.old)
            (F.given files.new) (F.store files.old) (F.store files.new) self.old.path.stations.items
            self.new.path.stations.items (F.faults files.old) (F.faults files.new) self.old.path.stopped
            self.new.path.stopped }
        // It was met in a firing of this cycle, the last that is counted.
        ensures stopped { IfErr result (λ stop. (fired : List ℕ) × (m : ℕ)
            × FiresAt self.old.pipeline.network self.old.pipeline.firings stalled.now self.old.pipeline.fired fired m
            × (self.new.pipeline.fired ≡ fired_once fired m)
            × IsStopped F.tells (settings self.new.path) self.old.path.stopped (F.store files.old)
            (F.store files.new) self.new.path.stations.items (F.faults files.old) (F.faults files.new) m
            (slice_index fired m) stop) }
    {
        firings_are_rounded_up();
        self.pipeline.cycle(&mut self.path, files, stalled)
    }

    /// Finishes the outputs' files, one after the other, and then reads each input to its end, where no firing is left.
    pub fn end<F: Files>(&mut self, files: &mut F) -> Result<(), Stop>
        requires going { self.old.path.stopped ≡ false }
        requires run { IsRun F.tells (record { value = U.value; place = U.place; step = U.step; count = U.count })
            (settings self.old.path) (F.given files.old) (F.store files.old) self.old.path.stations.items
            self.old.pipeline }
        requires finished { IsFinished self.old.pipeline.network self.old.pipeline.firings
            (between self.old.pipeline.fired) }

        // Each output's file is whole, and each input's has no fault.
        ensures ended { OnOk result (AreEnding F.tells
            (record { value = U.value; place = U.place; step = U.step; count = U.count }) (settings self.new.path)
            (F.given files.new) (F.store files.new) self.new.path.stations.items self.old.pipeline.fired
            (length self.new.path.stations.items) (length self.new.path.stations.items)) }
        ensures kept { OnOk result (F.faults files.new ≡ F.faults files.old) }
        ensures onward { Onward F.tells (settings self.old.path) (settings self.new.path) (F.given files.old)
            (F.given files.new) (F.store files.old) (F.store files.new) self.old.path.stations.items
            self.new.path.stations.items (F.faults files.old) (F.faults files.new) self.old.path.stopped
            self.new.path.stopped }
        ensures stopped { IfErr result (StopsEnding F.tells
            (record { value = U.value; place = U.place; step = U.step; count = U.count }) (settings self.new.path)
            (F.given files.new) self.old.path.stopped (F.store files.old) (F.store files.new)
            self.new.path.stations.items self.old.pipeline.fired (F.faults files.old) (F.faults files.new)) }
    {
        match self.path.finish(files) {
            Ok(()) => match self.path.end(files) {
                Ok(()) => Ok(()),
                Err(stop) => Err(stop),
            },
            Err(stop) => Err(stop),
        }
    }

    /// Whether no module has a firing left. Then a run of cycles up to here has ended with its last one.
    pub fn finished(&self) -> bool
        ensures finished { IsTrue result ↔ IsFinished self.now.pipeline.network self.now.pipeline.firings
            (between self.now.pipeline.fired) }
        ensures ends { IsTrue result → (stalls : List (List Bool))
            → HasRun self.now.pipeline.network self.now.pipeline.firings stalls self.now.pipeline.fired
            → EndsWith self.now.pipeline.network self.now.pipeline.firings stalls }
    {
        self.pipeline.finished()
    }

    /// The number of cells in the queues that are marked, as in those for reuse. There is a mark for each queue.
    pub fn held(&self, marked: &[bool]) -> u64
        requires { length marked.now ≡ length self.now.pipeline.network.queues }
        ensures value { result ≡ held_below self.now.pipeline.network self.now.pipeline.fired marked.now
            (length self.now.pipeline.network.queues) }
        ensures within { result
            ≤ storage_below self.now.pipeline.network marked.now (length self.now.pipeline.network.queues) }
    {
        self.pipeline.held(marked)
    }
}
