//! The limits of networks, each by its one name.

/// The greatest delay, in cells.
pub const MOST_DELAY: u64 = 67_108_864;

/// The most cells of storage of all tensors together.
pub const MOST_REUSE: u64 = 16_777_216;

/// The most modules.
pub const MOST_MODULES: usize = 65_536;
