ghost use Rattle.std.specs.Prelude.{◌≡◌, ◌<◌, ◌^◌, false, slice_index};
ghost use Rattle.soda_ir.specs.Program.{plain};
ghost use Rattle.cycle_sim.specs.Settings.{net_in};
ghost use Rattle.cycle_sim.specs.Stations.{AgreesWith, AreReady};
ghost use Rattle.cycle_sim.specs.Stopped.{IsStopped};
ghost use Rattle.cycle_sim.specs.Onward.{Onward};
ghost use Rattle.cycle_sim.specs.Paths.{settings};
ghost use Rattle.cycle_sim.specs.machine.Going.{first_stays, one_follows, stopped_since};

use crate::laws::{cells_of_a_run_are_in_range, modules_of_a_run_send, sinks_of_a_run_take};
use crate::stations::Station;
use crate::{Stop, Unit};
use array_bytes::Form;
use net_cycles::Datapath;
use net_ir::Network;
use soda_io::Files;
use soda_ir::Program;
use std::alloc::Global;

/// What the modules of the network of a program under its delays compute, over files: the cells of the inputs are read
/// from theirs, and those of the outputs written to theirs, firing by firing.
#[derive(Drop)]
pub struct FilePath<U> {
    pub(crate) program: Program,
    pub(crate) delays: Vec<u64>,
    pub(crate) rows: u64,
    pub(crate) params: Vec<i128>,
    pub(crate) form: Form,
    pub(crate) run: u64,
    pub(crate) stations: Vec<Station<U>>,
    // A firing was stopped.
    pub(crate) stopped: bool,
}

impl<U> FilePath<U> {
    /// A run of this program under these delays of its staged tensors. Its arrays have so many rows and stand in files of
    /// this form; a line of a text has `run` cells. It has no modules yet.
    pub fn new(
        alloc: Global,
        program: Program,
        delays: Vec<u64>,
        rows: u64,
        params: Vec<i128>,
        form: Form,
        run: u64,
    ) -> FilePath<U>
        ensures settings { settings result ≡ record {
          program = plain program;
          delays = delays.items;
          rows = rows;
          params = params.items;
          form = form;
          run = run;
        } }
        ensures going { result.stopped ≡ false }
    {
        FilePath {
            program,
            delays,
            rows,
            params,
            form,
            run,
            stations: Vec::new(alloc),
            stopped: false,
        }
    }
}

impl<F: Files, U: Unit> Datapath<F> for FilePath<U> {
    type Fault = Stop;

    ghost agrees = { λ d files net stream.
        AgreesWith F.tells (settings d) (F.store files) d.stations.items stream };

    ghost ready = { λ d files net fired. (d.stopped ≡ false) × (net ≡ net_in (settings d)) × AreReady F.tells
        (record { value = U.value; place = U.place; step = U.step; count = U.count }) (settings d) (F.given files)
        (F.store files) d.stations.items fired };

    ghost relies = { λ d net fired m. slice_index fired m < 2 ^ 40 };

    ghost onward = { λ d files e later. Onward F.tells (settings d) (settings e) (F.given files) (F.given later)
        (F.store files) (F.store later) d.stations.items e.stations.items (F.faults files) (F.faults later) d.stopped
        e.stopped };

    ghost stopped = { λ d files e later net fired m stop. IsStopped F.tells (settings e) d.stopped (F.store files)
        (F.store later) e.stations.items (F.faults files) (F.faults later) m (slice_index fired m) stop };

    ghost stays = { λ d files. first_stays F.tells (settings d) (F.given files) (F.store files) d.stations.items
        (F.faults files) d.stopped };

    ghost follows = { λ a b c x y z one two. one_follows one two };

    ghost since = { λ a b c x y z net fired m stop one two. stopped_since one two };

    fn fire(
        &mut self,
        files: &mut F,
        _net: &Network,
        module: u32,
        fired: &[u64],
        ports: &[i128],
        sends: &mut [i128],
    ) -> Result<(), Stop> {
        modules_of_a_run_send();
        sinks_of_a_run_take();
        cells_of_a_run_are_in_range();
        match self.stations[module as usize].fire(files, fired[module as usize], ports, sends) {
            Ok(()) => Ok(()),
            Err(stop) => {
                self.stopped = true;
                Err(stop)
            }
        }
    }
}
