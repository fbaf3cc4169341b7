use array_bytes::CellFault;
use soda_io::IoErr;

/// What stops a firing.
#[derive(Clone, Copy, Debug, PartialEq, Eq)]
pub enum Stop {
    /// What the reader of an input answered: the file's first fault, or one of a read.
    Input { input: u32, fault: CellFault },
    /// What the writer of an output answered.
    Output { output: u32, error: IoErr },
}
