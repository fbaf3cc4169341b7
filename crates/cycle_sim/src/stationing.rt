ghost use Rattle.std.specs.Prelude.{◌≡◌, ◌<◌, ◌^◌, ◌-ℤ◌, ℕ, List, pos, IfOk, OnOk, length, slice_index};
ghost use Rattle.soda_ir.specs.Counts.{count_below, is_output};
ghost use Rattle.soda_ir.specs.Program.{input_types, plain};
ghost use Rattle.net_ir.specs.declared.network.Module.TheVariants.{Compute, Sink, Source};
ghost use Rattle.time_stages.specs.Staged.{staged};
ghost use Rattle.staged_cells.specs.Streams.{module_at};
ghost use Rattle.cycle_sim.specs.Fresh.{AreFresh, AreNew, IsNew, IsNewSink, IsNewSource};
ghost use Rattle.cycle_sim.specs.Handles.{HaveHandles};
ghost use Rattle.cycle_sim.specs.Paths.{settings};
ghost use Rattle.cycle_sim.specs.Settings.{IsSettings, array_cells, net_in};
ghost use Rattle.cycle_sim.specs.Stations.{AreReady, IsSinkOf, IsSourceOf, UnitAt};

use crate::Unit;
use crate::laws::{modules_of_a_run_are_apart, modules_of_a_run_have_ends};
use crate::making::{delay_of, lanes_from, output_at, stage_type};
use crate::path::FilePath;
use crate::stations::{SinkStation, SourceStation, Station};
use bursts::{CellReader, CellWriter};
use file_modules::{SinkModule, SourceModule};
use net_ir::{Module, Network};
use soda_io::Files;
use staged_cells::sinks_take_arrays;
use std::alloc::{AllocError as NoMemory, Global};
use time_stages::Staged;

// The number of the cell that the first firing at a lane is about. There may be no such cell.
fn first_place(lane: u32, delay: u64) -> i64
    requires { delay < 2 ^ 62 }
    ensures { result ≡ pos lane -ℤ pos delay }
{
    i64::from(lane) - delay as i64
}

impl<U: Unit> FilePath<U> {
    // The unroll factor.
    fn unroll(&self) -> u32
        requires { IsSettings (settings self.now) }
        ensures value { result ≡ (plain self.now.program).unroll }
        ensures some { 0 < result }
    {
        self.program.parts().unroll as u32
    }

    // The source of an input, at module `number`.
    fn source(
        &self,
        alloc: Global,
        network: &Network,
        staging: &Staged,
        cells: u64,
        inputs: &[u32],
        number: u32,
        tensor: u32,
    ) -> Result<SourceStation, NoMemory>
        requires settings { IsSettings (settings self.now) }
        requires network { network.now ≡ net_in (settings self.now) }
        requires staging { staging.now ≡ staged (plain self.now.program) }
        requires cells { cells ≡ array_cells (settings self.now) }
        requires inputs { length inputs.now ≡ length (input_types (plain self.now.program).tensors) }
        requires known { number < length network.now.modules }
        requires kind { module_at network.now number ≡ Source tensor }
        ensures source { IfOk result (IsSourceOf (settings self.now) number tensor) }
        ensures new { IfOk result (IsNewSource inputs.now) }
    {
        modules_of_a_run_have_ends();
        let ty = stage_type(&self.program, staging, tensor);
        let burst = self.program.parts().burst as u32;
        let unroll = self.unroll();
        let delay = delay_of(&self.delays, tensor);
        let id = inputs[tensor as usize];
        let reader = CellReader::new(alloc, self.form, ty, burst, cells, id)?;
        let reads = SourceModule::new(alloc, reader, cells, unroll, delay)?;
        match lanes_from(alloc, network, number) {
            Ok(lanes) => Ok(SourceStation {
                input: tensor,
                reads,
                lanes,
                done: 0,
            }),
            Err(error) => {
                drop(reads);
                Err(error)
            }
        }
    }

    // The sink of an output, at module `number`.
    fn sink(
        &self,
        alloc: Global,
        network: &Network,
        staging: &Staged,
        cells: u64,
        outputs: &[u32],
        number: u32,
        tensor: u32,
    ) -> Result<SinkStation, NoMemory>
        requires settings { IsSettings (settings self.now) }
        requires network { network.now ≡ net_in (settings self.now) }
        requires staging { staging.now ≡ staged (plain self.now.program) }
        requires cells { cells ≡ array_cells (settings self.now) }
        requires outputs { length outputs.now ≡ count_below (is_output (plain self.now.program))
            (length (plain self.now.program).tensors) }
        requires known { number < length network.now.modules }
        requires kind { module_at network.now number ≡ Sink tensor }
        ensures sink { IfOk result (IsSinkOf (settings self.now) number tensor) }
        ensures new { IfOk result (IsNewSink outputs.now) }
    {
        modules_of_a_run_have_ends();
        sinks_take_arrays();
        let ty = stage_type(&self.program, staging, tensor);
        let burst = self.program.parts().burst as u32;
        let unroll = self.unroll();
        let delay = delay_of(&self.delays, tensor);
        let output = output_at(&self.program, staging, tensor);
        let id = outputs[output as usize];
        let writer = CellWriter::new(alloc, self.form, ty, burst, self.run, id)?;
        let writes = SinkModule::new(alloc, writer, ty, cells, unroll, delay)?;
        Ok(SinkStation { output, writes })
    }

    // The computing module of a staged tensor at a lane, at module `number`.
    fn unit(
        &self,
        alloc: Global,
        network: &Network,
        staging: &Staged,
        number: u32,
        tensor: u32,
        lane: u32,
    ) -> Result<U, NoMemory>
        requires settings { IsSettings (settings self.now) }
        requires network { network.now ≡ net_in (settings self.now) }
        requires staging { staging.now ≡ staged (plain self.now.program) }
        requires known { number < length network.now.modules }
        requires kind { module_at network.now number ≡ Compute tensor lane }
        ensures { IfOk result (UnitAt
            (record { value = U.value; place = U.place; step = U.step; count = U.count }) (settings self.now) number
            tensor lane 0) }
    {
        modules_of_a_run_have_ends();
        let unroll = self.unroll();
        let delay = delay_of(&self.delays, tensor);
        let first = first_place(lane, delay);
        match U::make(
            alloc,
            &self.program,
            staging,
            self.rows,
            &self.params,
            tensor,
            first,
            unroll,
        ) {
            Ok(unit) => Ok(unit),
            Err(error) => Err(error),
        }
    }

    // What a module works with before the first cycle.
    fn station(
        &self,
        alloc: Global,
        network: &Network,
        staging: &Staged,
        cells: u64,
        inputs: &[u32],
        outputs: &[u32],
        number: u32,
    ) -> Result<Station<U>, NoMemory>
        requires settings { IsSettings (settings self.now) }
        requires network { network.now ≡ net_in (settings self.now) }
        requires staging { staging.now ≡ staged (plain self.now.program) }
        requires cells { cells ≡ array_cells (settings self.now) }
        requires inputs { length inputs.now ≡ length (input_types (plain self.now.program).tensors) }
        requires outputs { length outputs.now ≡ count_below (is_output (plain self.now.program))
            (length (plain self.now.program).tensors) }
        requires known { number < length network.now.modules }
        ensures { IfOk result (IsNew
            (record { value = U.value; place = U.place; step = U.step; count = U.count }) (settings self.now)
            inputs.now outputs.now number (module_at network.now number)) }
    {
        match network.modules()[number as usize] {
            Module::Source { tensor } => {
                match self.source(alloc, network, staging, cells, inputs, number, tensor) {
                    Ok(source) => Ok(Station::Source(source)),
                    Err(error) => Err(error),
                }
            }
            Module::Forward { .. } => Ok(Station::Forward),
            Module::Compute { tensor, lane } => {
                match self.unit(alloc, network, staging, number, tensor, lane) {
                    Ok(unit) => Ok(Station::Compute(unit)),
                    Err(error) => Err(error),
                }
            }
            Module::Sink { tensor } => {
                match self.sink(alloc, network, staging, cells, outputs, number, tensor) {
                    Ok(sink) => Ok(Station::Sink(sink)),
                    Err(error) => Err(error),
                }
            }
        }
    }
}

impl<U: Unit + Drop> FilePath<U> {
    // What all modules work with before the first cycle, by their numbers.
    fn all_stations(
        &self,
        alloc: Global,
        network: &Network,
        staging: &Staged,
        cells: u64,
        inputs: &[u32],
        outputs: &[u32],
    ) -> Result<Vec<Station<U>>, NoMemory>
        requires settings { IsSettings (settings self.now) }
        requires network { network.now ≡ net_in (settings self.now) }
        requires staging { staging.now ≡ staged (plain self.now.program) }
        requires cells { cells ≡ array_cells (settings self.now) }
        requires inputs { length inputs.now ≡ length (input_types (plain self.now.program).tensors) }
        requires outputs { length outputs.now ≡ count_below (is_output (plain self.now.program))
            (length (plain self.now.program).tensors) }
        ensures { IfOk result (λ stations. AreNew
            (record { value = U.value; place = U.place; step = U.step; count = U.count }) (settings self.now)
            inputs.now outputs.now network.now stations.items) }
    {
        let mut stations = Vec::with_capacity(alloc, network.modules().len())?;
        for number in 0..network.modules().len() as u32 {
            let station = self.station(alloc, network, staging, cells, inputs, outputs, number);
            match station {
                Ok(station) => stations.push(station)?,
                Err(error) => {
                    drop(stations);
                    return Err(error);
                }
            }
        }
        Ok(stations)
    }

    /// Makes the modules of the network, about to do their first firings. `cells` is how many cells an array has.
    ///
    /// `inputs` are the ids of the inputs' files in order, fresh from `open`, `outputs` those of the outputs', fresh from
    /// `create`. No two are equal, and the name of a created one is that of no other.
    pub fn begin<F: Files>(
        &mut self,
        alloc: Global,
        files: &F,
        network: &Network,
        staging: &Staged,
        cells: u64,
        inputs: &[u32],
        outputs: &[u32],
    ) -> Result<(), NoMemory>
        requires settings { IsSettings (settings self.old) }
        requires network { network.now ≡ net_in (settings self.old) }
        requires staging { staging.now ≡ staged (plain self.old.program) }
        requires cells { cells ≡ array_cells (settings self.old) }
        requires inputs { length inputs.now ≡ length (input_types (plain self.old.program).tensors) }
        requires outputs { length outputs.now ≡ count_below (is_output (plain self.old.program))
            (length (plain self.old.program).tensors) }
        requires fresh { AreFresh F.tells inputs.now outputs.now (F.given files.now) (F.store files.now) }
        ensures settings { settings self.new ≡ settings self.old }
        ensures going { self.new.stopped ≡ self.old.stopped }
        ensures handles { OnOk result (HaveHandles (settings self.new) inputs.now outputs.now
            self.new.stations.items) }
        ensures ready { OnOk result ((fired : List ℕ)
            → ((m : ℕ) → m < length network.now.modules → slice_index fired m ≡ 0)
            → AreReady F.tells (record { value = U.value; place = U.place; step = U.step; count = U.count })
            (settings self.new) (F.given files.now) (F.store files.now) self.new.stations.items fired) }
    {
        let _ = files;
        modules_of_a_run_are_apart();
        match self.all_stations(alloc, network, staging, cells, inputs, outputs) {
            Ok(stations) => {
                self.stations = stations;
                Ok(())
            }
            Err(error) => Err(error),
        }
    }
}
