/// The most bytes of a cell of a text.
pub(crate) const MOST_RUN: u8 = 64;

/// The most bytes that a text has beside those of its cells at their longest.
pub(crate) const SPARE_BYTES: u64 = 65_536;
