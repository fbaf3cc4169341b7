use thiserror::Error;

/// Why not all files of a list were opened or created.
#[derive(Clone, Copy, Debug, PartialEq, Eq, Error)]
pub enum StepFail {
    /// The call on the file of this number failed, from 0 in the list; the count of faults rose in this call, or
    /// stands at its end. No call came after it.
    #[error("a call on a file failed")]
    Failed(u32),
    /// Memory was refused.
    #[error("out of memory")]
    Memory,
}
