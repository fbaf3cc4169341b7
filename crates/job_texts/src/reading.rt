ghost use Rattle.std.specs.Prelude.{◌≡◌, ℕ, ◌+◌, ◌<◌, ◌≤◌, true, List, length, Some, IfOk, OnOk, IsErrOf};
ghost use Rattle.soda_io.specs.Cause.{Rose};
ghost use Rattle.soda_io.specs.Store.{KeepsBytes, Store};
ghost use Rattle.job_files.specs.Files.{JobFile, asking};
ghost use Rattle.job_files.specs.Progress.{Progress};
ghost use Rattle.job_texts.specs.Texts.{ReadsText};

use job_files::{open_next, read_next};
use soda_io::{Files, IoErr};
use std::alloc::Global;
use whole_files::ReadFail;

/// Opens the next text of a job and reads it to its end: at most `most` bytes. All files before it were read to their
/// ends.
///
/// `TooLong` exactly where it holds more than `most` bytes; none behind the first that is too many is read.
pub fn read_text<F: Files>(
    alloc: Global,
    files: &mut F,
    name: &str,
    most: usize,
) -> Result<Vec<u8>, ReadFail>
    ensures short { IfOk result (λ v. length v.items ≤ most) }
    ensures whole { F.tells → IfOk result (λ v. (F.store files.old).bytes name.now ≡ Some v.items) }
    ensures too_long { F.tells → IsErrOf result ReadFail.TooLong → (bytes : List ℕ)
        × ((F.store files.old).bytes name.now ≡ Some bytes) × (most < length bytes) }
    ensures journal { F.tells → (first : ℕ) → (begun : Store) → (asked : List JobFile) → (places : ℕ → ℕ)
        → (f : JobFile) → asking f ≡ (true, name.now)
        → Progress first begun asked (length asked) places (F.given files.old) (F.store files.old)
        → ReadsText first begun asked places (F.given files.new) (F.store files.new) f most result }
    ensures bytes { F.tells → KeepsBytes (F.store files.old) (F.store files.new) }
    ensures given { OnOk result (F.given files.new ≡ F.given files.old + 1) }

    ensures later { F.faults files.old ≤ F.faults files.new }
    ensures kept { OnOk result (F.faults files.new ≡ F.faults files.old) }
    ensures kept_too_long { IsErrOf result ReadFail.TooLong → F.faults files.new ≡ F.faults files.old }
    ensures failed { IsErrOf result ReadFail.Failed → Rose (F.faults files.old) (F.faults files.new) }
{
    match open_next(files, name) {
        Ok(id) => read_next(alloc, files, id, most),
        Err(IoErr::Failed) => Err(ReadFail::Failed),
        Err(IoErr::Memory) => Err(ReadFail::Memory),
    }
}
