ghost use Rattle.std.specs.Prelude.{◌<◌, ◌↔◌, IsTrue};
ghost use Rattle.std.specs.List.{All};
ghost use Rattle.delay_net.specs.Limits.{delay_end};

use crate::net_if_one;
use delay_net::{DELAY_END, Net, Read};
use std::alloc::{AllocError, Global};
use std::process::Abort;

mod certificates;
mod lanes;
mod networks;
mod plans;
mod walks;

// A read, as its reader, what it reads and its offset.
type Reading = (u32, u32, i64);

// Three reads of one tensor by the next, along lines of 2,000 cells, and three along a line.
const BLUR: [Reading; 6] = [
    (1, 0, 0),
    (1, 0, 2000),
    (1, 0, 4000),
    (2, 1, 0),
    (2, 1, 1),
    (2, 1, 2),
];

// A wide tensor that is better computed late.
const FAR: [Reading; 3] = [(1, 0, 0), (2, 0, 1000), (2, 1, 0)];

fn reads_of(alloc: Global, rows: &[Reading]) -> Result<Vec<Read>, AllocError> {
    let mut reads = Vec::new(alloc);
    for (reader, of, offset) in rows {
        reads.push(Read {
            reader: *reader,
            of: *of,
            offset: *offset,
        })?;
    }
    Ok(reads)
}

// The net of a row.
fn net_of(
    rt: &impl Abort,
    alloc: Global,
    weights: &[u8],
    rows: &[Reading],
) -> Result<Net, AllocError> {
    let reads = reads_of(alloc, rows)?;
    let found = net_if_one(alloc, weights, &reads)?;
    Ok(found.expect(rt, "a net"))
}

// Whether numbers are all below the end of delays, which is that of ages.
fn are_below_end(numbers: &[u64]) -> bool
    ensures { IsTrue result ↔ All (λ number. number < delay_end) numbers.now }
{
    numbers.iter().all(|number| *number < DELAY_END)
}
