ghost use Rattle.std.specs.Prelude.{◌≡◌, ℕ, ◌+◌, ◌*◌, ◌<◌, ◌≤◌, ◌^◌, length, IfOk, OnOk};
ghost use Rattle.std.specs.List.{All};
ghost use Rattle.delay_net.specs.Limits.{most_tensors, most_reads};
ghost use Rattle.delay_net.specs.Shape.{IsWidth};
ghost use Rattle.bench_solve.specs.Limits.{most_each};
ghost use Rattle.bench_solve.specs.Made.{IsReadBelow};

use crate::limits::FARTHEST;
use delay_net::{Net, NoMemory, Read};
use std::alloc::Global;

// Which earlier tensors are read.
#[derive(Clone, Copy)]
pub enum Kind {
    // The one before, at offsets one after the other.
    Chain,
    // Any earlier ones, at any offsets.
    Random,
}

// The next number of a sequence without order.
fn next(seed: u32) -> u32
    requires { seed < 2 ^ 31 }
    ensures { result < 2 ^ 31 }
{
    ((seed as u64 * 1103515245 + 12345) % 2147483648) as u32
}

// The widths of so many tensors.
fn widths(alloc: Global, tensors: u32) -> Result<Vec<u8>, NoMemory>
    ensures count { IfOk result (λ widths. length widths.items ≡ tensors) }
    ensures widths { IfOk result (λ widths. All IsWidth widths.items) }
{
    let mut seed = 1;
    let mut widths = Vec::new(alloc);
    for _ in 0..tensors {
        seed = next(seed);
        widths.push(((seed >> 16) % 64 + 1) as u8)?;
    }
    Ok(widths)
}

// A read by a tensor, its place among the reads by it, and two numbers without order.
fn read(kind: Kind, reader: u32, place: u32, of: u32, offset: u32) -> Read
    requires reader { (0 < reader) × (reader < most_tensors) }
    requires place { place < most_each }
    ensures { (tensors : ℕ) → reader < tensors → IsReadBelow tensors result }
{
    match kind {
        Kind::Chain => Read {
            reader,
            of: reader - 1,
            offset: place as i64 * 1000 - (offset % 50) as i64,
        },
        Kind::Random => Read {
            reader,
            of: of % reader,
            offset: (offset % (2 * FARTHEST + 1)) as i64 - FARTHEST as i64,
        },
    }
}

// Adds the reads by a tensor, and gives the next number of the sequence.
fn add_reads(
    kind: Kind,
    reader: u32,
    each: u32,
    first: u32,
    reads: &mut Vec<Read>,
) -> Result<u32, NoMemory>
    requires reader { (0 < reader) × (reader < most_tensors) }
    requires each { each ≤ most_each }
    requires first { first < 2 ^ 31 }
    ensures next { IfOk result (λ next. next < 2 ^ 31) }
    ensures count { OnOk result (length reads.new.items ≡ length reads.old.items + each) }
    ensures reads { (tensors : ℕ) → reader < tensors → All (IsReadBelow tensors) reads.old.items
        → OnOk result (All (IsReadBelow tensors) reads.new.items) }
{
    let mut seed = first;
    for place in 0..each {
        let of = next(seed);
        seed = next(of);
        reads.push(read(kind, reader, place, of >> 16, seed >> 6))?;
    }
    Ok(seed)
}

// The reads of so many tensors, each but the first of which reads so many times.
fn reads(alloc: Global, kind: Kind, tensors: u32, each: u32) -> Result<Vec<Read>, NoMemory>
    requires tensors { tensors ≤ most_tensors }
    requires each { each ≤ most_each }
    ensures few { IfOk result (λ reads. length reads.items ≤ most_reads) }
    ensures reads { IfOk result (λ reads. All (IsReadBelow tensors) reads.items) }
{
    let mut seed = 1;
    let mut reads = Vec::new(alloc);
    for reader in 1..tensors {
        seed = add_reads(kind, reader, each, seed, &mut reads)?;
    }
    Ok(reads)
}

/// A net of so many tensors, at most 512, each but the first of which reads so many times, at most
/// 32. The only error is that memory ran out.
pub fn made_net(alloc: Global, kind: Kind, tensors: u32, each: u32) -> Result<Net, NoMemory>
    requires tensors { tensors ≤ most_tensors }
    requires each { each ≤ most_each }
    ensures { IfOk result (λ net. length net.weights ≡ tensors) }
{
    let widths = widths(alloc, tensors)?;
    let reads = reads(alloc, kind, tensors, each)?;
    Net::new(alloc, &widths, &reads)
}
