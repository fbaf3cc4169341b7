ghost use Rattle.std.specs.Prelude.{◌≡◌};
ghost use Rattle.job_status.specs.Lines.{number_of};

use array_bytes::CellFault;
use soda_io::FileRole;
use soda_parse::Refusal;

/// What is wrong with what a file of arrays, params or stalls holds.
#[derive(Clone, Copy, Debug, PartialEq, Eq)]
pub enum ArrayFault {
    /// The input of this number, from 0, is the first that has a fault, and this is its first.
    Cell { input: u32, fault: CellFault },
    /// The params file is refused at this line, from 1. It is 0 where the file is too long, where a param has no line,
    /// and where a program with params is given no file.
    Params(u64),
    /// The stall file is refused at this line, from 1, and at 0 where it is too long.
    Stall(u64),
}

/// How a job ended.
#[derive(Clone, Copy, Debug, PartialEq, Eq)]
pub enum Status {
    /// The job was done.
    Ok,
    /// The words aren't taken.
    Usage,
    /// The program's text is refused, or its arrays pass a limit.
    Program(Refusal),
    /// What a file of arrays, params or stalls holds is refused.
    Array(ArrayFault),
    /// A call on the file of this role failed.
    FileFault(FileRole),
    /// A call on the standard output failed.
    OutFault,
    /// Want of memory.
    Memory,
    /// The words ask for what isn't built yet.
    NotYetBuilt,
}

impl Status {
    /// The number that the program ends with.
    pub fn number(self) -> u8
        ensures { result ≡ number_of self }
    {
        match self {
            Status::Ok => 0,
            Status::Usage => 2,
            Status::Program(_) => 3,
            Status::Array(_) => 4,
            Status::FileFault(_) => 5,
            Status::OutFault => 6,
            Status::Memory => 7,
            Status::NotYetBuilt => 10,
        }
    }
}
