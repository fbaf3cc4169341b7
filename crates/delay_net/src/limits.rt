/// A net has at most this many tensors.
pub const MOST_TENSORS: usize = 512;

/// A net has at most this many reads.
pub const MOST_READS: usize = 16384;

/// A tensor is at most this many bits wide.
pub const MOST_BITS: u8 = 64;

/// An offset is at most this many cells ahead or back.
pub const MOST_OFFSET: i64 = 4398046511104;

/// A delay that a call is given is below this many cycles.
pub const DELAY_END: u64 = 4611686018427387904;
