ghost use Rattle.std.specs.Prelude.{◌≡◌, ◌+◌, ◌<◌, ◌≤◌, ℕ, List, false, length, slice_index, IfErr, OnOk};
ghost use Rattle.cycle_sim.specs.Ending.{AllFired, AreEnding};
ghost use Rattle.cycle_sim.specs.Onward.{Onward};
ghost use Rattle.cycle_sim.specs.Paths.{settings};
ghost use Rattle.cycle_sim.specs.Stopped.{IsStopped};
ghost use Rattle.cycle_sim.specs.Unended.{IsUnended};
ghost use Rattle.cycle_sim.specs.machine.Closing.{Finished, MayEnd, MayFinish, ReadOut, StopsEnd, StopsFinish};
ghost use Rattle.cycle_sim.specs.machine.Firings.{FailedIn, GoesOn, Touches, done_of};

use crate::path::FilePath;
use crate::stations::Station;
use crate::{Stop, Unit};
use net_build::{firings_are_rounded_up, programs_have_plans};
use soda_io::Files;

impl<U: Unit> Station<U> {
    /// Writes what isn't written yet of a module's output; a module without one does nothing.
    pub(crate) fn finish<F: Files>(&mut self, files: &mut F) -> Result<(), Stop>
        requires may { MayFinish F.tells (F.given files.old) (F.store files.old) self.old }

        ensures on { GoesOn self.old self.new }
        ensures given { F.given files.new ≡ F.given files.old }
        ensures files { F.tells → Touches (F.given files.old) (F.store files.old) (F.store files.new) self.old
            self.new (FailedIn result) }
        ensures finished { OnOk result (Finished F.tells (F.store files.old) (F.store files.new) self.old
            self.new) }
        ensures later { F.faults files.old ≤ F.faults files.new }
        ensures kept { OnOk result (F.faults files.new ≡ F.faults files.old) }
        ensures still { done_of self.new ≡ done_of self.old }
        ensures stopped { IfErr result (StopsFinish F.tells (F.store files.old) (F.store files.new)
            (F.faults files.old) (F.faults files.new) self.old) }
    {
        match self {
            Station::Source(_) => Ok(()),
            Station::Forward => Ok(()),
            Station::Compute(_) => Ok(()),
            Station::Sink(sink) => match sink.writes.finish(files) {
                Ok(()) => Ok(()),
                Err(error) => Err(Stop::Output {
                    output: sink.output,
                    error,
                }),
            },
        }
    }

    /// Reads a module's input, all of whose cells were read, to its end; a module without one does nothing.
    pub(crate) fn end<F: Files>(&mut self, files: &mut F) -> Result<(), Stop>
        requires may { MayEnd F.tells (F.given files.old) (F.store files.old) self.old }

        ensures on { GoesOn self.old self.new }
        ensures given { F.given files.new ≡ F.given files.old }
        ensures files { F.tells → Touches (F.given files.old) (F.store files.old) (F.store files.new) self.old
            self.new (FailedIn result) }
        ensures ended { OnOk result (ReadOut F.tells (F.given files.new) (F.store files.old) (F.store files.new) self.old
            self.new) }
        ensures later { F.faults files.old ≤ F.faults files.new }
        ensures kept { OnOk result (F.faults files.new ≡ F.faults files.old) }
        ensures still { done_of self.new ≡ done_of self.old }
        ensures stopped { IfErr result (StopsEnd F.tells (F.store files.old) (F.faults files.old)
            (F.faults files.new) self.old) }
    {
        match self {
            Station::Source(source) => match source.reads.end(files) {
                Ok(()) => Ok(()),
                Err(fault) => Err(Stop::Input {
                    input: source.input,
                    fault,
                }),
            },
            Station::Forward => Ok(()),
            Station::Compute(_) => Ok(()),
            Station::Sink(_) => Ok(()),
        }
    }
}

impl<U: Unit> FilePath<U> {
    // Finishes the output of one module.
    fn finish_one<F: Files>(&mut self, files: &mut F, number: usize) -> Result<(), Stop>
        requires known { number < length self.old.stations.items }
        requires going { self.old.stopped ≡ false }
        requires ending { (fired : List ℕ) × AllFired (settings self.old) fired × AreEnding F.tells
            (record { value = U.value; place = U.place; step = U.step; count = U.count }) (settings self.old)
            (F.given files.old) (F.store files.old) self.old.stations.items fired number 0 }

        ensures ending { OnOk result ((fired : List ℕ) → AllFired (settings self.old) fired → AreEnding F.tells
            (record { value = U.value; place = U.place; step = U.step; count = U.count }) (settings self.old)
            (F.given files.old) (F.store files.old) self.old.stations.items fired number 0 → AreEnding F.tells
            (record { value = U.value; place = U.place; step = U.step; count = U.count }) (settings self.new)
            (F.given files.new) (F.store files.new) self.new.stations.items fired (number + 1) 0) }
        ensures going { OnOk result (self.new.stopped ≡ false) }
        ensures long { length self.new.stations.items ≡ length self.old.stations.items }
        ensures onward { Onward F.tells (settings self.old) (settings self.new) (F.given files.old)
            (F.given files.new) (F.store files.old) (F.store files.new) self.old.stations.items
            self.new.stations.items (F.faults files.old) (F.faults files.new) self.old.stopped self.new.stopped }
        ensures stopped { IfErr result (λ stop. (fired : List ℕ) → AllFired (settings self.old) fired → AreEnding F.tells
            (record { value = U.value; place = U.place; step = U.step; count = U.count }) (settings self.old)
            (F.given files.old) (F.store files.old) self.old.stations.items fired number 0 → (m : ℕ)
            × IsStopped F.tells (settings self.new) self.old.stopped (F.store files.old) (F.store files.new)
            self.new.stations.items (F.faults files.old) (F.faults files.new) m (slice_index fired m) stop) }
    {
        programs_have_plans();
        firings_are_rounded_up();
        match self.stations[number].finish(files) {
            Ok(()) => Ok(()),
            Err(stop) => {
                self.stopped = true;
                Err(stop)
            }
        }
    }

    /// Finishes the outputs of all modules, in firing order.
    pub(crate) fn finish<F: Files>(&mut self, files: &mut F) -> Result<(), Stop>
        requires going { self.old.stopped ≡ false }
        requires ending { (fired : List ℕ) × AllFired (settings self.old) fired × AreEnding F.tells
            (record { value = U.value; place = U.place; step = U.step; count = U.count }) (settings self.old)
            (F.given files.old) (F.store files.old) self.old.stations.items fired 0 0 }

        ensures ending { OnOk result ((fired : List ℕ) → AllFired (settings self.old) fired → AreEnding F.tells
            (record { value = U.value; place = U.place; step = U.step; count = U.count }) (settings self.old)
            (F.given files.old) (F.store files.old) self.old.stations.items fired 0 0 → AreEnding F.tells
            (record { value = U.value; place = U.place; step = U.step; count = U.count }) (settings self.new)
            (F.given files.new) (F.store files.new) self.new.stations.items fired
            (length self.new.stations.items) 0) }
        ensures long { length self.new.stations.items ≡ length self.old.stations.items }
        ensures going { OnOk result (self.new.stopped ≡ false) }
        ensures onward { Onward F.tells (settings self.old) (settings self.new) (F.given files.old)
            (F.given files.new) (F.store files.old) (F.store files.new) self.old.stations.items
            self.new.stations.items (F.faults files.old) (F.faults files.new) self.old.stopped self.new.stopped }
        ensures stopped { IfErr result (λ stop. (fired : List ℕ) → AllFired (settings self.old) fired → AreEnding F.tells
            (record { value = U.value; place = U.place; step = U.step; count = U.count }) (settings self.old)
            (F.given files.old) (F.store files.old) self.old.stations.items fired 0 0 → (m : ℕ)
            × IsStopped F.tells (settings self.new) self.old.stopped (F.store files.old) (F.store files.new)
            self.new.stations.items (F.faults files.old) (F.faults files.new) m (slice_index fired m) stop) }
    {
        for number in 0..self.stations.len() {
            match self.finish_one(files, number) {
                Ok(()) => {}
                Err(stop) => return Err(stop),
            }
        }
        Ok(())
    }

    // Reads the input of one module to its end.
    fn end_one<F: Files>(&mut self, files: &mut F, number: usize) -> Result<(), Stop>
        requires known { number < length self.old.stations.items }
        requires going { self.old.stopped ≡ false }
        requires ending { (fired : List ℕ) × (finished : ℕ) × AllFired (settings self.old) fired × AreEnding F.tells
            (record { value = U.value; place = U.place; step = U.step; count = U.count }) (settings self.old)
            (F.given files.old) (F.store files.old) self.old.stations.items fired finished number }

        ensures ending { OnOk result ((fired : List ℕ) (finished : ℕ) → AllFired (settings self.old) fired
            → AreEnding F.tells (record { value = U.value; place = U.place; step = U.step; count = U.count })
            (settings self.old) (F.given files.old) (F.store files.old) self.old.stations.items fired finished number
            → AreEnding F.tells (record { value = U.value; place = U.place; step = U.step; count = U.count })
            (settings self.new) (F.given files.new) (F.store files.new) self.new.stations.items fired finished
            (number + 1)) }
        ensures going { OnOk result (self.new.stopped ≡ false) }
        ensures long { length self.new.stations.items ≡ length self.old.stations.items }
        ensures onward { Onward F.tells (settings self.old) (settings self.new) (F.given files.old)
            (F.given files.new) (F.store files.old) (F.store files.new) self.old.stations.items
            self.new.stations.items (F.faults files.old) (F.faults files.new) self.old.stopped self.new.stopped }
        ensures stopped { IfErr result (λ stop. (fired : List ℕ) (finished : ℕ) → AllFired (settings self.old) fired
            → AreEnding F.tells (record { value = U.value; place = U.place; step = U.step; count = U.count })
            (settings self.old) (F.given files.old) (F.store files.old) self.old.stations.items fired finished number
            → IsUnended F.tells (record { value = U.value; place = U.place; step = U.step; count = U.count })
            (settings self.new) (F.given files.new) self.old.stopped (F.store files.old) (F.store files.new)
            self.new.stations.items fired finished (F.faults files.old) (F.faults files.new) number stop) }
    {
        programs_have_plans();
        firings_are_rounded_up();
        match self.stations[number].end(files) {
            Ok(()) => Ok(()),
            Err(stop) => {
                self.stopped = true;
                Err(stop)
            }
        }
    }

    /// Reads the inputs of all modules to their ends, in firing order.
    pub(crate) fn end<F: Files>(&mut self, files: &mut F) -> Result<(), Stop>
        requires going { self.old.stopped ≡ false }
        requires ending { (fired : List ℕ) × (finished : ℕ) × AllFired (settings self.old) fired × AreEnding F.tells
            (record { value = U.value; place = U.place; step = U.step; count = U.count }) (settings self.old)
            (F.given files.old) (F.store files.old) self.old.stations.items fired finished 0 }

        ensures ending { OnOk result ((fired : List ℕ) (finished : ℕ) → AllFired (settings self.old) fired
            → AreEnding F.tells (record { value = U.value; place = U.place; step = U.step; count = U.count })
            (settings self.old) (F.given files.old) (F.store files.old) self.old.stations.items fired finished 0
            → AreEnding F.tells (record { value = U.value; place = U.place; step = U.step; count = U.count })
            (settings self.new) (F.given files.new) (F.store files.new) self.new.stations.items fired finished
            (length self.new.stations.items)) }
        ensures long { length self.new.stations.items ≡ length self.old.stations.items }
        ensures going { OnOk result (self.new.stopped ≡ false) }
        ensures onward { Onward F.tells (settings self.old) (settings self.new) (F.given files.old)
            (F.given files.new) (F.store files.old) (F.store files.new) self.old.stations.items
            self.new.stations.items (F.faults files.old) (F.faults files.new) self.old.stopped self.new.stopped }
        ensures stopped { IfErr result (λ stop. (fired : List ℕ) (finished : ℕ) → AllFired (settings self.old) fired
            → AreEnding F.tells (record { value = U.value; place = U.place; step = U.step; count = U.count })
            (settings self.old) (F.given files.old) (F.store files.old) self.old.stations.items fired finished 0
            → (m : ℕ) × IsUnended F.tells (record { value = U.value; place = U.place; step = U.step; count = U.count })
            (settings self.new) (F.given files.new) self.old.stopped (F.store files.old) (F.store files.new)
            self.new.stations.items fired finished (F.faults files.old) (F.faults files.new) m stop) }
    {
        for number in 0..self.stations.len() {
            match self.end_one(files, number) {
                Ok(()) => {}
                Err(stop) => return Err(stop),
            }
        }
        Ok(())
    }
}
