ghost use Rattle.std.specs.Prelude.{◌≡◌, ◌<◌, ◌≤◌, ◌^◌, [], ℕ, ℤ, length, IfOk, IfSome};
ghost use Rattle.net_ir.specs.States.{zeros};
ghost use Rattle.net_cycles.specs.Between.{between};
ghost use Rattle.net_cycles.specs.Cycles.{HasRun};
ghost use Rattle.net_cycles.specs.Streams.{HoldStreams};

use crate::{Cells, Stopped, pipeline_if_sound, relay_if_one, run_to_end};
use net_cycles::{Pipeline, fires_exactly, sends_and_takes};
use net_ir::{Module, NoMemory, Queue};
use std::alloc::Global;
use std::process::Abort;
use std::test::Fail;

// Cells of a list, and the count of those that weren't there.
#[derive(Drop)]
struct Listed {
    cells: &'static [i128],
    place: usize,
    missed: u64,
}

impl Cells for Listed {
    ghost faults = { λ l. l.missed };

    fn next_cell(&mut self) -> Option<i128> {
        match self.cells.get(self.place) {
            Some(cell) => {
                self.place = self.place.saturating_add(1);
                Some(*cell)
            }
            None => {
                self.missed = self.missed.saturating_add(1);
                None
            }
        }
    }
}

// An output that reads an input at offsets 0 and 4, with its source 1, its sink 4 and 12 firings; its queue 2 is for
// reuse, and has this capacity.
fn two_reads(alloc: Global, capacity: u64) -> Result<Option<Pipeline>, NoMemory>
    ensures run { IfOk result (λ found. IfSome found (λ p. HasRun p.network p.firings [] p.fired)) }
    ensures zeros { IfOk result (λ found. IfSome found (λ p. between p.fired ≡ zeros p.network)) }
    ensures streams { IfOk result (λ found. IfSome found (λ p. (stream : ℕ → ℕ → ℤ)
        → HoldStreams p.network p.fired p.fifos stream)) }
{
    let modules = [
        forward(4),
        Module::Source { tensor: 0 },
        forward(0),
        Module::Compute { tensor: 1, lane: 0 },
        Module::Sink { tensor: 1 },
    ];
    let queues = [
        queue(0, 3, 0, 1, 4),
        queue(1, 2, 0, 1, 0),
        queue(2, 0, 0, capacity, 0),
        queue(2, 3, 1, 1, 0),
        queue(3, 4, 0, 1, 0),
    ];
    let modules = Vec::from_slice(alloc, &modules)?;
    let queues = Vec::from_slice(alloc, &queues)?;
    pipeline_if_sound(alloc, modules, queues, 12)
}

fn forward(tap: u64) -> Module {
    Module::Forward {
        tensor: 0,
        lane: 0,
        tap,
    }
}

fn queue(from: u32, to: u32, port: u32, capacity: u64, lead: u64) -> Queue {
    Queue {
        from,
        to,
        port,
        capacity,
        lead,
    }
}

// The cells, the capacity for reuse, the modules that are stalled in each cycle, the number of cycles, at most 50, or
// None where a cell isn't there, and what is handed on.
type Row = (
    &'static [i128],
    u64,
    &'static [bool],
    Option<u64>,
    &'static [i128],
);

const NONE: &[bool] = &[false, false, false, false, false];

const ROWS: &[Row] = &[
    (
        &[1, 2, 3, 4, 5, 6, 7, 8, 9, 10, 11, 12],
        4,
        NONE,
        Some(12),
        &[1, 2, 3, 4, 6, 8, 10, 12, 14, 16, 18, 20],
    ),
    // Locked up.
    (&[1, 2, 3, 4, 5, 6], 1, NONE, Some(50), &[1, 2]),
    // The sink is always stalled.
    (
        &[1, 2, 3],
        4,
        &[false, false, false, false, true],
        Some(50),
        &[],
    ),
    // A cell isn't there.
    (&[-7, 5, 9], 4, NONE, None, &[-7, 5, 9]),
];

fn expect_row(rt: &impl Abort, alloc: Global, row: Row) -> Result<(), NoMemory> {
    let (cells, capacity, stalled, wanted, given) = row;
    let Some(mut pipeline) = two_reads(alloc, capacity)? else {
        panic!(rt; "no network");
    };
    let Some(mut relay) = relay_if_one(alloc, &pipeline, 1, 4) else {
        panic!(rt; "no source or no sink");
    };
    let mut listed = Listed {
        cells,
        place: 0,
        missed: 0,
    };
    assert!(rt; stalled.len() == pipeline.network().modules().len());
    match run_to_end(&mut pipeline, &mut relay, &mut listed, stalled, 50) {
        Ok(cycles) => assert!(rt; wanted == Some(cycles) && listed.missed == 0),
        Err(Stopped::NoCell) => assert!(rt; wanted == None && listed.missed == 1),
        Err(Stopped::NoMemory) => return Err(NoMemory),
    }
    assert!(rt; relay.given.as_slice() == given);
    drop(relay);
    drop(pipeline);
    Ok(())
}

#[test]
fn rows_hand_on(rt: HostRuntime) -> Result<(), Fail> {
    for row in ROWS {
        expect_row(&rt, rt.alloc(), *row)?;
    }
    Ok(())
}

// After two cycles the second cell stands in the queue for reuse, at its second place, and the first in queue 0.
fn expect_places(rt: &impl Abort, alloc: Global) -> Result<(), NoMemory> {
    let Some(mut pipeline) = two_reads(alloc, 4)? else {
        panic!(rt; "no network");
    };
    let Some(mut relay) = relay_if_one(alloc, &pipeline, 1, 4) else {
        panic!(rt; "no source or no sink");
    };
    let mut listed = Listed {
        cells: &[7, 8],
        place: 0,
        missed: 0,
    };
    assert!(rt; NONE.len() == pipeline.network().modules().len());
    match run_to_end(&mut pipeline, &mut relay, &mut listed, NONE, 2) {
        Ok(cycles) => assert!(rt; cycles == 2),
        Err(_) => panic!(rt; "stopped"),
    }
    let marked = [false, false, true, false, false];
    assert!(rt; marked.len() == pipeline.network().queues().len());
    assert!(rt; pipeline.held(&marked) == 1 && pipeline.room() == 8 && !pipeline.finished());
    let region = pipeline.region();
    assert!(rt; region.first().copied() == Some(7) && region.get(3).copied() == Some(8));
    drop(relay);
    drop(pipeline);
    Ok(())
}

#[test]
fn items_lie_in_the_region(rt: HostRuntime) -> Result<(), Fail> {
    fires_exactly();
    sends_and_takes();
    expect_places(&rt, rt.alloc())?;
    Ok(())
}
