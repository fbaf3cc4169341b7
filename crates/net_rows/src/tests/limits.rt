//! How large networks are, and which limits programs pass.

use crate::tests::plans::{BLUR, built, program_of};
use net_build::BuildRefusal;
use soda_ir::{LimitKind, Program};
use std::alloc::{AllocError, Global};
use std::test::Fail;

// A text, and the numbers of modules and queues of its network, or the limit that it passes.
type Row = (&'static [u8], Result<(usize, usize), BuildRefusal>);

const ROWS: &[Row] = &[
    (BLUR, Ok((100, 178))),
    // As many cells of storage as there may be, and one more.
    (
        b"kernel: held\nburst width: 8\nunroll factor: 1\ninput uint8: a(16777216, *)\n\
output uint8: o(0, 0) = a(0, 0) + a(0, 1)\n",
        Ok((5, 5)),
    ),
    (
        b"kernel: held\nburst width: 8\nunroll factor: 1\ninput uint8: a(16777216, *)\n\
output uint8: o(0, 0) = a(0, 0) + a(1, 1)\n",
        Err(BuildRefusal::Limit(LimitKind::Reuse, 16777217)),
    ),
    // As late as a tensor may be, and later. The second has too much storage too.
    (
        b"kernel: late\nburst width: 8\nunroll factor: 1\niterate: 4\ninput uint8: a(16777216, *)\n\
output uint8: o(0, 0) = a(0, 1)\n",
        Ok((10, 9)),
    ),
    (
        b"kernel: late\nburst width: 8\nunroll factor: 1\niterate: 64\ninput uint8: a(16777216, *)\n\
output uint8: o(0, 0) = a(0, 0) + a(0, 1)\n",
        Err(BuildRefusal::Limit(LimitKind::Delay, 1073741824)),
    ),
    // Nearly as many modules as there may be, and two more.
    (
        b"kernel: wide\nburst width: 8\nunroll factor: 64\niterate: 63\ninput uint8: a(*)\n\
output uint8: o(0) = a(0) + a(64) + a(128) + a(192) + a(256) + a(320) + a(384) + a(448) + a(512) + a(576) + a(640) + \
a(704) + a(768) + a(832) + a(896)\n",
        Ok((64514, 121024)),
    ),
    (
        b"kernel: wide\nburst width: 8\nunroll factor: 64\niterate: 64\ninput uint8: a(*)\n\
output uint8: o(0) = a(0) + a(64) + a(128) + a(192) + a(256) + a(320) + a(384) + a(448) + a(512) + a(576) + a(640) + \
a(704) + a(768) + a(832) + a(896)\n",
        Err(BuildRefusal::Limit(LimitKind::Modules, 65538)),
    ),
];

// How many modules and queues the network of a program has.
fn counts(alloc: Global, program: &Program) -> Result<(usize, usize), BuildRefusal> {
    let (delays, network) = built(alloc, program)?;
    let counts = (network.modules().len(), network.queues().len());
    drop(network);
    drop(delays);
    Ok(counts)
}

fn holds(alloc: Global, row: &Row) -> Result<bool, AllocError> {
    let (text, wanted) = *row;
    let Some(program) = program_of(alloc, text)? else {
        return Ok(false);
    };
    let found = counts(alloc, &program);
    drop(program);
    Ok(found == wanted)
}

// The number of the first row that doesn't hold, and the number of rows where all do.
fn first_wrong(alloc: Global, rows: &[Row]) -> Result<usize, AllocError> {
    for number in 0..rows.len() {
        if !holds(alloc, &rows[number])? {
            return Ok(number);
        }
    }
    Ok(rows.len())
}

#[test]
fn limits(rt: HostRuntime) -> Result<(), Fail> {
    assert_eq!(rt; first_wrong(rt.alloc(), ROWS)?, ROWS.len());
    Ok(())
}
