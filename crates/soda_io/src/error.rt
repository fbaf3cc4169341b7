use thiserror::Error;

/// Why a call of the outside didn't do what it was asked for.
#[derive(Clone, Copy, Debug, PartialEq, Eq, Error)]
pub enum IoErr {
    /// The file or the sink refused; the count of faults rose in this call, or stands at its end.
    #[error("a read or a write failed")]
    Failed,
    /// Memory was refused.
    #[error("out of memory")]
    Memory,
}
