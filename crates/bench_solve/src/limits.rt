/// A tensor of a made net reads at most so many times.
pub(crate) const MOST_EACH: u32 = 32;

/// An offset of a net without order is at most this many cells ahead or back.
pub(crate) const FARTHEST: u32 = 1_048_576;
