use thiserror::Error;

/// Why the next cells of a file, or its end, can't be had. Cells are numbered from 0.
#[derive(Clone, Copy, Debug, PartialEq, Eq, Error)]
pub enum CellFault {
    /// The run of bytes with this number is no cell, or is longer than 64 bytes.
    #[error("bad cell {0}")]
    BadCell(u64),
    /// The cell with this number is outside its type's range.
    #[error("cell {0} out of range")]
    CellRange(u64),
    /// The file ends after so many cells.
    #[error("too few cells {0}")]
    TooFew(u64),
    /// Something stands behind the last cell.
    #[error("too many cells")]
    TooMany,
    /// The text has more bytes than its cells may have.
    #[error("too long")]
    TooLong,
    /// A read failed.
    #[error("a read failed")]
    Failed,
    /// Memory was refused.
    #[error("out of memory")]
    Memory,
}
