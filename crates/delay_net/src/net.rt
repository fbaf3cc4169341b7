ghost use Rattle.std.specs.Prelude.{◌≡◌, IfOk};
ghost use Rattle.delay_net.specs.Shape.{IsNet};

use crate::NoMemory;
use std::alloc::Global;
use std::marker::Model;

/// One read of a tensor by a later one, at a constant offset.
#[derive(Clone, Copy)]
pub struct Read {
    /// The number of the tensor that reads.
    pub reader: u32,
    /// The number of the tensor that is read.
    pub of: u32,
    /// How many cells after the reader's own place the read lies, negative for a place before it.
    pub offset: i64,
}

/// Tensors with their widths in bits, and the reads among them, in order.
#[derive(Drop)]
pub struct Net {
    weights: Vec<u8>,
    reads: Vec<Read>,
}

impl Model for Net {
    ghost use Rattle.delay_net.specs.Shape.{Shape, IsNet};

    ghost Value = { Shape };

    ghost view = { λ net. record { weights = net.weights.items; reads = net.reads.items } };

    ghost invariant = { λ net. IsNet net.weights.items net.reads.items };
}

impl Net {
    /// The net of these widths, each from 1 to 64 bits, and these reads: at most 512 tensors and
    /// 16,384 reads, each of an earlier tensor by a later one, with an offset within plus or minus
    /// 2^42. The only error is that memory ran out.
    pub fn new(alloc: Global, weights: &[u8], reads: &[Read]) -> Result<Net, NoMemory>
        requires { IsNet weights.now reads.now }
        ensures weights { IfOk result (λ net. net.weights ≡ weights.now) }
        ensures reads { IfOk result (λ net. net.reads ≡ reads.now) }
    {
        let weights = Vec::from_slice(alloc, weights)?;
        let reads = Vec::from_slice(alloc, reads)?;
        Ok(Net { weights, reads })
    }

    /// The width of each tensor, in bits.
    pub fn weights(&self) -> &[u8]
        ensures value { result.now ≡ self.now.weights }
        ensures net { IsNet self.now.weights self.now.reads }
    {
        &self.weights
    }

    /// The reads, in their order.
    pub fn reads(&self) -> &[Read]
        ensures value { result.now ≡ self.now.reads }
        ensures net { IsNet self.now.weights self.now.reads }
    {
        &self.reads
    }
}
