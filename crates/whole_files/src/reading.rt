ghost use Rattle.std.specs.Prelude.{◌≡◌, ◌<◌, ◌≤◌, true, length, IfOk, OnOk, IsErrOf};
ghost use Rattle.soda_io.specs.Cause.{Rose};
ghost use Rattle.soda_io.specs.Store.{left};
ghost use Rattle.whole_files.specs.Reading.{ReadsWhole, items_of};

use soda_io::{Files, IoErr};
use std::alloc::Global;
use thiserror::Error;

/// Why a file wasn't read whole.
#[derive(Clone, Copy, Debug, PartialEq, Eq, Error)]
pub enum ReadFail {
    /// The file has more bytes than are allowed.
    #[error("the file is too long")]
    TooLong,
    /// A read failed; the count of faults rose in this call, or stands at its end.
    #[error("a read failed")]
    Failed,
    /// Memory was refused.
    #[error("out of memory")]
    Memory,
}

// How many bytes one read asks for at most.
const BLOCK: usize = 4096;

/// Reads what an id has left, to its end: at most `most` bytes. The id came from `open`.
///
/// `TooLong` exactly where more than `most` bytes are left; it reads none behind the first byte that is too many.
/// `Failed` exactly where a read failed, and it reads nothing after it. `Memory` where memory was refused.
pub fn read_whole<F: Files>(
    alloc: Global,
    files: &mut F,
    id: u32,
    most: usize,
) -> Result<Vec<u8>, ReadFail>
    requires given { id < F.given files.old }
    requires opened { F.tells → (F.store files.old).opened id ≡ true }

    ensures short { IfOk result (λ v. length v.items ≤ most) }
    ensures whole { F.tells → IfOk result (λ v. v.items ≡ left (F.store files.old) id) }
    ensures too_long { F.tells → IsErrOf result ReadFail.TooLong → most < length (left (F.store files.old) id) }
    ensures store { F.tells →
        ReadsWhole (F.given files.old) (F.store files.old) (F.store files.new) id most (items_of result) }
    ensures given { F.given files.new ≡ F.given files.old }

    ensures later { F.faults files.old ≤ F.faults files.new }
    ensures kept { OnOk result (F.faults files.new ≡ F.faults files.old) }
    ensures kept_too_long { IsErrOf result ReadFail.TooLong → F.faults files.new ≡ F.faults files.old }
    ensures failed { IsErrOf result ReadFail.Failed → Rose (F.faults files.old) (F.faults files.new) }
{
    let mut bytes = Vec::new(alloc);
    let mut block = [0u8; BLOCK];
    while bytes.len() <= most {
        let room = (most - bytes.len()).min(BLOCK - 1) + 1;
        match files.read(id, &mut block[..room]) {
            Ok(0) => return Ok(bytes),
            Ok(count) => {
                let Ok(()) = bytes.extend_from_slice(&block[..count]) else {
                    return Err(ReadFail::Memory);
                };
            }
            Err(IoErr::Failed) => return Err(ReadFail::Failed),
            Err(IoErr::Memory) => return Err(ReadFail::Memory),
        }
    }
    Err(ReadFail::TooLong)
}
