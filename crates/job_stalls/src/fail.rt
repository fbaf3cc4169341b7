use thiserror::Error;

/// Why a stall file gave no stalls.
#[derive(Clone, Copy, Debug, PartialEq, Eq, Error)]
pub enum StallFail {
    /// It is refused at this line, from 1; 0 where it is too long.
    #[error("a line of the stall file is refused")]
    Line(u64),
    /// A call on it failed; the count of faults rose in this call, or stands at its end. No call came after it.
    #[error("a call on the stall file failed")]
    Failed,
    /// Memory was refused.
    #[error("out of memory")]
    Memory,
}
