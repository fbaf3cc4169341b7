/// A graph has at most this many nodes.
pub const MOST_NODES: u32 = 1024;

/// A graph has at most this many arcs.
pub const MOST_ARCS: usize = 65536;

/// The length of an arc is within plus or minus this.
pub const MOST_ARC_LENGTH: i64 = 4398046511104;
