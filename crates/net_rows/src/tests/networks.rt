//! Networks, module by module and queue by queue.

use crate::tests::plans::{AVG, AVG_BY_TWO, built, program_of};
use net_build::BuildRefusal;
use net_ir::{Module, Network, Queue};
use soda_ir::Program;
use std::alloc::{AllocError, Global};
use std::test::Fail;

// What a module is (source, forward, compute, kept in a sink), its tensor, its lane and its tap; 0 where there is none.
type Mod = (u8, u32, u32, u64);

// The two ends of a queue, its port, its capacity and its lead.
type Link = (u32, u32, u32, u64, u64);

// A text, and the delays, modules and queues of its network.
type Row = (
    &'static [u8],
    &'static [u64],
    &'static [Mod],
    &'static [Link],
);

const ROWS: &[Row] = &[
    (
        AVG,
        &[0, 1],
        &[
            (b'f', 0, 0, 2),
            (b'f', 0, 0, 1),
            (b's', 0, 0, 0),
            (b'f', 0, 0, 0),
            (b'c', 1, 0, 0),
            (b'k', 1, 0, 0),
        ],
        &[
            (0, 4, 0, 1, 2),
            (1, 0, 0, 1, 0),
            (1, 4, 1, 1, 1),
            (2, 3, 0, 1, 0),
            (3, 1, 0, 1, 0),
            (3, 4, 2, 1, 0),
            (4, 5, 0, 1, 0),
        ],
    ),
    (
        AVG_BY_TWO,
        &[0, 1],
        &[
            (b'f', 0, 0, 1),
            (b'f', 0, 1, 1),
            (b's', 0, 0, 0),
            (b'f', 0, 0, 0),
            (b'f', 0, 1, 0),
            (b'c', 1, 0, 0),
            (b'c', 1, 1, 0),
            (b'k', 1, 0, 0),
        ],
        &[
            (0, 5, 0, 1, 1),
            (1, 5, 1, 1, 1),
            (1, 6, 0, 1, 1),
            (2, 3, 0, 1, 0),
            (2, 4, 0, 1, 0),
            (3, 0, 0, 1, 0),
            (3, 5, 2, 1, 0),
            (3, 6, 1, 1, 0),
            (4, 1, 0, 1, 0),
            (4, 6, 2, 1, 0),
            (5, 7, 0, 1, 0),
            (6, 7, 1, 1, 0),
        ],
    ),
    // A cell and the fourth behind it: a reuse queue of four cells.
    (
        b"kernel: avg\nburst width: 8\nunroll factor: 1\ninput uint8: a(*)\noutput uint8: o(0) = a(0) + a(4)\n",
        &[0, 4],
        &[
            (b'f', 0, 0, 4),
            (b's', 0, 0, 0),
            (b'f', 0, 0, 0),
            (b'c', 1, 0, 0),
            (b'k', 1, 0, 0),
        ],
        &[
            (0, 3, 0, 1, 4),
            (1, 2, 0, 1, 0),
            (2, 0, 0, 4, 0),
            (2, 3, 1, 1, 0),
            (3, 4, 0, 1, 0),
        ],
    ),
    // Two iterations: the output of the first has no sink.
    (
        b"kernel: avg\nburst width: 8\nunroll factor: 1\niterate: 2\ninput uint8: a(*)\n\
output uint8: o(0) = (a(-1) + a(0) + a(1)) / 3\n",
        &[0, 1, 2],
        &[
            (b'f', 0, 0, 2),
            (b'f', 0, 0, 1),
            (b'f', 1, 0, 2),
            (b'f', 1, 0, 1),
            (b's', 0, 0, 0),
            (b'f', 0, 0, 0),
            (b'c', 1, 0, 0),
            (b'f', 1, 0, 0),
            (b'c', 2, 0, 0),
            (b'k', 2, 0, 0),
        ],
        &[
            (0, 6, 0, 1, 2),
            (1, 0, 0, 1, 0),
            (1, 6, 1, 1, 1),
            (2, 8, 3, 1, 2),
            (3, 2, 0, 1, 0),
            (3, 8, 4, 1, 1),
            (4, 5, 0, 1, 0),
            (5, 1, 0, 1, 0),
            (5, 6, 2, 1, 0),
            (6, 7, 0, 1, 0),
            (7, 3, 0, 1, 0),
            (7, 8, 5, 1, 0),
            (8, 9, 0, 1, 0),
        ],
    ),
];

fn told_module(found: Module) -> Mod {
    match found {
        Module::Source { tensor } => (b's', tensor, 0, 0),
        Module::Forward { tensor, lane, tap } => (b'f', tensor, lane, tap),
        Module::Compute { tensor, lane } => (b'c', tensor, lane, 0),
        Module::Sink { tensor } => (b'k', tensor, 0, 0),
    }
}

fn told_queue(queue: Queue) -> Link {
    (queue.from, queue.to, queue.port, queue.capacity, queue.lead)
}

fn are_modules(found: &[Module], wanted: &[Mod]) -> bool {
    if found.len() != wanted.len() {
        return false;
    }
    for number in 0..wanted.len() {
        if told_module(found[number]) != wanted[number] {
            return false;
        }
    }
    true
}

fn are_queues(found: &[Queue], wanted: &[Link]) -> bool {
    if found.len() != wanted.len() {
        return false;
    }
    for number in 0..wanted.len() {
        if told_queue(found[number]) != wanted[number] {
            return false;
        }
    }
    true
}

fn is_network(network: &Network, modules: &[Mod], queues: &[Link]) -> bool {
    are_modules(network.modules(), modules) && are_queues(network.queues(), queues)
}

// Whether the network of a program is what a row says.
fn is_row(alloc: Global, program: &Program, row: &Row) -> Result<bool, BuildRefusal> {
    let (_, wanted, modules, queues) = *row;
    let (delays, network) = built(alloc, program)?;
    let is = delays.as_slice() == wanted && is_network(&network, modules, queues);
    drop(network);
    drop(delays);
    Ok(is)
}

fn holds(alloc: Global, row: &Row) -> Result<bool, AllocError> {
    let (text, _, _, _) = *row;
    let Some(program) = program_of(alloc, text)? else {
        return Ok(false);
    };
    let is = is_row(alloc, &program, row);
    drop(program);
    Ok(is == Ok(true))
}

// The number of the first row that doesn't hold, and the number of rows where all do.
fn first_wrong(alloc: Global, rows: &[Row]) -> Result<usize, AllocError> {
    for number in 0..rows.len() {
        if !holds(alloc, &rows[number])? {
            return Ok(number);
        }
    }
    Ok(rows.len())
}

#[test]
fn networks(rt: HostRuntime) -> Result<(), Fail> {
    assert_eq!(rt; first_wrong(rt.alloc(), ROWS)?, ROWS.len());
    Ok(())
}
