ghost use Rattle.std.specs.Prelude.{◌≡◌, ℕ, ◌+◌, ◌<◌, ◌≤◌, ◌^◌, ℤ, pos, length, All, IfErr, OnOk, slice_index, slice_index_or};
ghost use Rattle.soda_io.specs.Store.{content};
ghost use Rattle.bursts.specs.Blocks.{FailsNow, IsWanted, ReadCause, ReadsOn, cells_in};
ghost use Rattle.bursts.specs.Readers.{is_done, kind};
ghost use Rattle.file_modules.specs.Modules.{FaultIs, read_before, source};
ghost use Rattle.cycle_sim.specs.Stations.{SourceAt, lane_cell};
ghost use Rattle.cycle_sim.specs.machine.Firings.{FailedIn, Fired, GoesOn, MayFire, SendsAll, Stops, Touches, done_of};

use crate::{Stop, Unit};
use array_bytes::CellFault;
use file_modules::{SinkModule, SourceModule};
use soda_io::Files;

/// The source of an input.
#[derive(Drop)]
pub(crate) struct SourceStation {
    /// The number of the input.
    pub input: u32,
    /// What it reads.
    pub reads: SourceModule,
    /// The lanes of the queues from it, in queue order.
    pub lanes: Vec<u32>,
    /// How many firings were done.
    pub done: u64,
}

/// The sink of an output.
#[derive(Drop)]
pub(crate) struct SinkStation {
    /// The number of the output.
    pub output: u32,
    /// What it writes.
    pub writes: SinkModule,
}

/// What a module works with.
#[derive(Drop)]
pub(crate) enum Station<U> {
    /// A source.
    Source(SourceStation),
    /// A forwarding module.
    Forward,
    /// A computing module.
    Compute(U),
    /// A sink.
    Sink(SinkStation),
}

// What each lane of these holds.
fn send_lanes(held: &[i128], lanes: &[u32], sends: &mut [i128])
    requires many { length sends.old ≡ length lanes.now }
    requires within { All (λ lane. lane < length held.now) lanes.now }
    ensures many { length sends.new ≡ length sends.old }
    ensures sent { (j : ℕ) → j < length sends.new → slice_index_or sends.new j (pos 0)
        ≡ slice_index_or held.now (slice_index lanes.now j) (pos 0) }
{
    for j in 0..sends.len() {
        sends[j] = held[lanes[j] as usize];
    }
}

impl SourceStation {
    /// Reads the cells of the next firing, and sends into each queue the cell of its lane.
    pub(crate) fn fire<F: Files>(
        &mut self,
        files: &mut F,
        firing: u64,
        sends: &mut [i128],
    ) -> Result<(), CellFault>
        requires ready { SourceAt F.tells (F.given files.old) (F.store files.old) «firing» self.old }
        requires many { length sends.old ≡ length self.old.lanes.items }
        requires within { All (λ lane. lane < self.old.reads.unroll) self.old.lanes.items }
        requires small { firing < 2 ^ 40 }

        ensures kept { source self.new.reads ≡ source self.old.reads }
        ensures input { self.new.input ≡ self.old.input }
        ensures lanes { self.new.lanes ≡ self.old.lanes }
        ensures later { self.old.done ≤ self.new.done }
        ensures still { IfErr result (λ fault. self.new.done ≡ self.old.done) }
        ensures ready { OnOk result (SourceAt F.tells (F.given files.new) (F.store files.new) («firing» + 1) self.new) }
        // Each queue gets the cell of its lane, and the cells up to those of this firing are good.
        ensures sent { F.tells → OnOk result ((j : ℕ) → j < length sends.new → slice_index_or sends.new j (pos 0)
            ≡ lane_cell self.old.reads (cells_in (kind self.old.reads.reader) (content (F.store files.old)
            (kind self.old.reads.reader).id)) «firing» (slice_index self.old.lanes.items j)) }
        ensures good { F.tells → OnOk result (read_before (source self.old.reads) («firing» + 1)
            ≤ length (cells_in (kind self.old.reads.reader) (content (F.store files.old)
            (kind self.old.reads.reader).id))) }
        ensures block { F.tells → FaultIs (kind self.old.reads.reader) (content (F.store files.old)
            (kind self.old.reads.reader).id) (read_before (source self.old.reads) («firing» + 1)) result }
        ensures many { length sends.new ≡ length sends.old }
        ensures given { F.given files.new ≡ F.given files.old }
        ensures store { F.tells → ReadsOn (F.given files.old) (F.store files.old) (F.store files.new)
            (kind self.old.reads.reader).id (is_done self.old.reads.reader) (is_done self.new.reads.reader)
            (FailsNow self.old.reads.reader.fault result)
            (IsWanted (kind self.old.reads.reader) (content (F.store files.old) (kind self.old.reads.reader).id)
            (read_before (source self.old.reads) («firing» + 1))) }
        ensures cause { ReadCause self.old.reads.reader.fault (F.faults files.old) (F.faults files.new) result }
    {
        match self.reads.fire(files, firing) {
            Ok(()) => {
                self.done = firing + 1;
                send_lanes(self.reads.lanes(), &self.lanes, sends);
                Ok(())
            }
            Err(fault) => Err(fault),
        }
    }
}

// The value at the first port, or 0 where there is none.
fn first(ports: &[i128]) -> i128
    ensures { result ≡ slice_index_or ports.now 0 (pos 0) }
{
    match ports.first() {
        Some(value) => *value,
        None => 0,
    }
}

// The same value for each queue.
fn send_same(sent: i128, sends: &mut [i128])
    ensures many { length sends.new ≡ length sends.old }
    ensures sent { SendsAll sends.new sent }
{
    for value in sends.iter_mut() {
        *value = sent;
    }
}

impl<U: Unit> Station<U> {
    /// Does the next firing of the module: from the values at its ports, the values that are sent, in queue order.
    pub(crate) fn fire<F: Files>(
        &mut self,
        files: &mut F,
        firing: u64,
        ports: &[i128],
        sends: &mut [i128],
    ) -> Result<(), Stop>
        requires may { MayFire F.tells (record { value = U.value; place = U.place; step = U.step; count = U.count })
            (F.given files.old) (F.store files.old) «firing» (length ports.now) (length sends.old) self.old }
        requires small { firing < 2 ^ 40 }

        ensures on { GoesOn self.old self.new }
        ensures many { length sends.new ≡ length sends.old }
        ensures given { F.given files.new ≡ F.given files.old }
        ensures files { F.tells → Touches (F.given files.old) (F.store files.old) (F.store files.new) self.old
            self.new (FailedIn result) }
        ensures fired { OnOk result (Fired F.tells
            (record { value = U.value; place = U.place; step = U.step; count = U.count }) (F.given files.old)
            (F.store files.old) (F.store files.new) «firing» ports.now sends.new self.old self.new) }
        ensures later { F.faults files.old ≤ F.faults files.new }
        ensures kept { OnOk result (F.faults files.new ≡ F.faults files.old) }
        ensures still { IfErr result (λ stop. done_of self.new ≡ done_of self.old) }
        ensures stopped { IfErr result (Stops F.tells (F.store files.old) (F.store files.new) (F.faults files.old)
            (F.faults files.new) «firing» ports.now self.old) }
    {
        match self {
            Station::Source(source) => match source.fire(files, firing, sends) {
                Ok(()) => Ok(()),
                Err(fault) => Err(Stop::Input {
                    input: source.input,
                    fault,
                }),
            },
            Station::Forward => {
                send_same(first(ports), sends);
                Ok(())
            }
            Station::Compute(unit) => {
                let value = unit.next(ports);
                send_same(value, sends);
                Ok(())
            }
            Station::Sink(sink) => {
                send_same(0, sends);
                match sink.writes.fire(files, firing, ports) {
                    Ok(()) => Ok(()),
                    Err(error) => Err(Stop::Output {
                        output: sink.output,
                        error,
                    }),
                }
            }
        }
    }
}
