ghost use Rattle.std.specs.Prelude.{◌≡◌, ◌<◌, ◌^◌, [], ℕ, Bool, List, length, slice_index, IfErr, IfOk, OnOk, false};
ghost use Rattle.net_ir.specs.States.{IsFinished};
ghost use Rattle.net_ir.specs.CycleRun.{EndsWith};
ghost use Rattle.net_cycles.specs.Between.{between, fired_once};
ghost use Rattle.net_cycles.specs.Cycles.{FiresAt, HasRun};
ghost use Rattle.sim_lines.specs.Flags.{flags_in, flags_until};
ghost use Rattle.sim_lines.specs.declared.stall.Stall.{Stall as PlainStall};
ghost use Rattle.time_stages.specs.Staged.{staged_tensors};
ghost use Rattle.cycle_sim.specs.Onward.{Onward};
ghost use Rattle.cycle_sim.specs.Paths.{settings};
ghost use Rattle.cycle_sim.specs.Running.{IsRun};
ghost use Rattle.cycle_sim.specs.Settings.{net_in};
ghost use Rattle.cycle_sim.specs.Stalled.{AreFlagsOf, IsStoppedIn};

use crate::{Simulation, Stop, Unit};
use net_build::{firings_are_rounded_up, networks_of_programs_end_in_time, programs_have_plans};
use sim_lines::{StallFlags, flags_are_counted, stalled_cycles_are_few};
use soda_io::Files;

impl<U: Unit> Simulation<U> {
    /// Does cycles until no firing is left, in each of which the flagged modules are stalled, and says how many. `flags` is
    /// of the stalls of the network's modules, at cycle 0, and no cycle was done.
    pub fn run<F: Files>(&mut self, files: &mut F, flags: &mut StallFlags) -> Result<u64, Stop>
        requires going { self.old.path.stopped ≡ false }
        requires run { IsRun F.tells (record { value = U.value; place = U.place; step = U.step; count = U.count })
            (settings self.old.path) (F.given files.old) (F.store files.old) self.old.path.stations.items
            self.old.pipeline }
        requires none { HasRun self.old.pipeline.network self.old.pipeline.firings [] self.old.pipeline.fired }
        requires first { flags.old.cycle ≡ 0 }
        requires flags { (stalls : List PlainStall) × (length stalls < 2 ^ 62)
            × AreFlagsOf (settings self.old.path) stalls flags.old }

        ensures run { OnOk result (IsRun F.tells
            (record { value = U.value; place = U.place; step = U.step; count = U.count }) (settings self.new.path)
            (F.given files.new) (F.store files.new) self.new.path.stations.items self.new.pipeline) }
        ensures going { OnOk result (self.new.path.stopped ≡ false) }
        ensures finished { OnOk result (IsFinished self.new.pipeline.network self.new.pipeline.firings
            (between self.new.pipeline.fired)) }
        // The run over these stalls ends with its last cycle.
        ensures ends { IfOk result (λ cycles. (stalls : List PlainStall)
            → AreFlagsOf (settings self.old.path) stalls flags.old → EndsWith self.old.pipeline.network
            self.old.pipeline.firings (flags_until (staged_tensors (settings self.old.path).program) stalls
            (net_in (settings self.old.path)).modules cycles)) }
        ensures onward { Onward F.tells (settings self.old.path) (settings self.new.path) (F.given files.old)
            (F.given files.new) (F.store files.old) (F.store files.new) self.old.path.stations.items
            self.new.path.stations.items (F.faults files.old) (F.faults files.new) self.old.path.stopped
            self.new.path.stopped }
        ensures stopped { IfErr result (λ stop. (stalls : List PlainStall)
            → AreFlagsOf (settings self.old.path) stalls flags.old → IsStoppedIn F.tells (settings self.old.path) stalls
            self.old.pipeline.network self.old.pipeline.firings self.old.path.stopped (F.store files.old)
            (F.store files.new) self.new.path.stations.items (F.faults files.old) (F.faults files.new) stop) }
    {
        programs_have_plans();
        firings_are_rounded_up();
        networks_of_programs_end_in_time();
        flags_are_counted();
        stalled_cycles_are_few();
        let mut cycles = 0;
        while !self.finished() {
            match self.cycle(files, flags.flags()) {
                Ok(_) => {}
                Err(stop) => return Err(stop),
            }
            flags.advance();
            cycles += 1;
        }
        Ok(cycles)
    }
}
