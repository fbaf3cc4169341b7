ghost use Rattle.std.specs.Prelude.{◌≡◌, ◌↔◌, IfOk, IfSome, IsSome, IsTrue};
ghost use Rattle.delay_net.specs.Shape.{IsNet, IsInOrder, HasSmallOffset};

use crate::NoMemory;
use delay_net::{MOST_BITS, MOST_OFFSET, MOST_READS, MOST_TENSORS, Net, Read};
use std::alloc::Global;

// Whether a read is one of a net of these widths.
fn is_read(weights: &[u8], read: Read) -> bool
    ensures { IsTrue result ↔ (IsInOrder weights.now read × HasSmallOffset read) }
{
    read.of < read.reader
        && (read.reader as usize) < weights.len()
        && -MOST_OFFSET <= read.offset
        && read.offset <= MOST_OFFSET
}

// Whether widths and reads are a net.
fn is_net(weights: &[u8], reads: &[Read]) -> bool
    ensures { IsTrue result ↔ IsNet weights.now reads.now }
{
    weights.len() <= MOST_TENSORS
        && reads.len() <= MOST_READS
        && weights
            .iter()
            .all(|width| 1 <= *width && *width <= MOST_BITS)
        && reads.iter().all(|read| is_read(weights, *read))
}

/// The net of these widths and reads, exactly where they are one. `Err` only where memory runs out.
pub fn net_if_one(alloc: Global, weights: &[u8], reads: &[Read]) -> Result<Option<Net>, NoMemory>
    ensures weights { IfOk result (λ found. IfSome found (λ net. net.weights ≡ weights.now)) }
    ensures reads { IfOk result (λ found. IfSome found (λ net. net.reads ≡ reads.now)) }
    ensures some { IfOk result (λ found. IsSome found ↔ IsNet weights.now reads.now) }
{
    if !is_net(weights, reads) {
        return Ok(None);
    }
    let net = Net::new(alloc, weights, reads)?;
    Ok(Some(net))
}
