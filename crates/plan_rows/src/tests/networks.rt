ghost use Rattle.std.specs.Prelude.{◌≡◌, length, IfOk};
ghost use Rattle.net_ir.specs.CycleRun.{IsBetween};
ghost use Rattle.net_ir.specs.Worked.{two_reads};

use net_ir::{
    Counts, Module, Network, Queue, can_step, capacity_decides, count_cycle, finished, step,
    waits_for,
};
use std::alloc::{AllocError, Global};
use std::process::Abort;
use std::test::Fail;

// The network of an output that reads an input at offsets 0 and 4.
fn two_reads(alloc: Global, capacity: u64) -> Result<Network, AllocError>
    ensures { IfOk result (λ net. net ≡ two_reads capacity) }
{
    let modules = [
        Module::Forward {
            tensor: 0,
            lane: 0,
            tap: 4,
        },
        Module::Source { tensor: 0 },
        Module::Forward {
            tensor: 0,
            lane: 0,
            tap: 0,
        },
        Module::Compute { tensor: 1, lane: 0 },
        Module::Sink { tensor: 1 },
    ];
    let queues = [
        queue(0, 3, 0, 1, 4),
        queue(1, 2, 0, 1, 0),
        queue(2, 0, 0, capacity, 0),
        queue(2, 3, 1, 1, 0),
        queue(3, 4, 0, 1, 0),
    ];
    let modules = Vec::from_slice(alloc, &modules)?;
    let queues = Vec::from_slice(alloc, &queues)?;
    capacity_decides();
    Network::new(alloc, modules, queues)
}

fn queue(from: u32, to: u32, port: u32, capacity: u64, lead: u64) -> Queue
    ensures { result ≡ record { from = from; to = to; port = port; capacity = capacity; lead = lead } }
{
    Queue {
        from,
        to,
        port,
        capacity,
        lead,
    }
}

// One round over the modules in an order, each of which does an event if it can.
fn round(net: &Network, counts: &mut Counts, order: &[u32])
    requires started { counts.old.network ≡ net.now }
    ensures started { counts.new.network ≡ net.now }
{
    for module in order {
        if (*module as usize) < net.modules().len() && can_step(net, counts, *module) {
            step(net, counts, *module);
        }
    }
}

fn rounds(net: &Network, counts: &mut Counts, order: &[u32])
    requires started { counts.old.network ≡ net.now }
    ensures started { counts.new.network ≡ net.now }
{
    for _round in 0..200 {
        round(net, counts, order);
    }
}

// For each module, its completed firings, its events in the running one, and the module that it waits for or 99.
fn told(alloc: Global, net: &Network, counts: &Counts) -> Result<Vec<(u64, u32, u32)>, AllocError>
    requires started { counts.now.network ≡ net.now }
{
    let mut all = Vec::new(alloc);
    for module in 0..net.modules().len() as u32 {
        let waits = waits_for(net, counts, module).unwrap_or(99);
        all.push((counts.fired(module), counts.part(module), waits))?;
    }
    Ok(all)
}

// The capacity of the reuse queue, an order of the modules, what is told of them at the end, and whether they are done.
type Row = (u64, &'static [u32], &'static [(u64, u32, u32)], bool);

const STUCK: &[(u64, u32, u32)] = &[(1, 1, 3), (5, 0, 2), (3, 1, 0), (3, 0, 2), (3, 0, 3)];

const DONE: &[(u64, u32, u32)] = &[
    (8, 0, 99),
    (12, 0, 99),
    (12, 0, 99),
    (12, 0, 99),
    (12, 0, 99),
];

// With a reuse queue of the gap every order of events ends finished; with one too small, every order ends stuck.
const ENDS: &[Row] = &[
    (1, &[0, 1, 2, 3, 4], STUCK, false),
    (1, &[4, 3, 2, 1, 0], STUCK, false),
    (1, &[1, 1, 1, 1, 2, 0, 4, 3], STUCK, false),
    (1, &[2, 0, 3, 1, 4, 4, 0], STUCK, false),
    (4, &[0, 1, 2, 3, 4], DONE, true),
    (4, &[4, 3, 2, 1, 0], DONE, true),
    (4, &[1, 1, 1, 1, 2, 0, 4, 3], DONE, true),
];

// What is told of the modules after many rounds, and whether they are done.
fn end_of(
    alloc: Global,
    net: &Network,
    order: &[u32],
) -> Result<(Vec<(u64, u32, u32)>, bool), AllocError> {
    let mut counts = Counts::start(alloc, net, 12)?;
    rounds(net, &mut counts, order);
    let done = finished(net, &counts);
    let all = told(alloc, net, &counts);
    drop(counts);
    Ok((all?, done))
}

fn expect_end(rt: &impl Abort, alloc: Global, row: Row) -> Result<(), AllocError> {
    let (capacity, order, wanted, wanted_done) = row;
    let net = two_reads(alloc, capacity)?;
    assert!(rt; net.modules().len() == 5 && net.queues().len() == 5);
    let end = end_of(alloc, &net, order);
    drop(net);
    let (all, done) = end?;
    assert!(rt; done == wanted_done && all.as_slice() == wanted);
    drop(all);
    Ok(())
}

#[test]
fn runs_of_events(rt: HostRuntime) -> Result<(), Fail> {
    for row in ENDS {
        expect_end(&rt, rt.alloc(), *row)?;
    }
    assert!(rt; Module::Sink { tensor: 1 }.age() == 0);
    Ok(())
}

fn cycles_to_the_end(net: &Network, counts: &mut Counts, stalled: &[bool]) -> u32
    requires started { counts.old.network ≡ net.now }
    requires flags { length stalled.now ≡ length net.now.modules }
    requires between { IsBetween counts.old.state }
{
    let mut cycles = 0;
    while cycles < 100 && !finished(net, counts) {
        let _count = count_cycle(net, counts, stalled);
        cycles += 1;
    }
    cycles
}

fn expect_cycles(rt: &impl Abort, alloc: Global, net: &Network) -> Result<(), AllocError>
    requires { net.now ≡ two_reads 4 }
{
    let mut counts = Counts::start(alloc, net, 12)?;
    let none = [false; 5];
    let first = count_cycle(net, &mut counts, &none);
    assert!(rt; first.fired == 4 && first.held == 1);
    let second = count_cycle(net, &mut counts, &[false, true, false, false, false]);
    assert!(rt; second.fired == 1 && second.held == 4);
    assert!(rt; cycles_to_the_end(net, &mut counts, &none) == 11);
    drop(counts);
    Ok(())
}

#[test]
fn cycles_are_counted(rt: HostRuntime) -> Result<(), Fail> {
    let net = two_reads(rt.alloc(), 4)?;
    let ran = expect_cycles(&rt, rt.alloc(), &net);
    drop(net);
    ran?;
    Ok(())
}
