/// The most bytes of a stall file.
pub const MOST_STALL_BYTES: usize = 1_048_576;
