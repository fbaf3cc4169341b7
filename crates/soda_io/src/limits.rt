/// The most ids that are given.
pub(crate) const MOST_IDS: usize = 4294967295;
