ghost use Rattle.std.specs.Prelude.{◌≡◌, ℕ, ◌+◌, ◌<◌, ◌≤◌, true, List, length, IfOk, OnOk, IsErrOf};
ghost use Rattle.soda_io.specs.Cause.{Rose};
ghost use Rattle.soda_io.specs.Store.{KeepsBytes, Store, left};
ghost use Rattle.job_files.specs.Files.{JobFile};
ghost use Rattle.job_files.specs.Progress.{Progress};
ghost use Rattle.job_files.specs.Steps.{ReadsNext};

use soda_io::Files;
use std::alloc::Global;
use whole_files::{ReadFail, read_whole};

/// Reads the next file of a job to its end: at most `most` bytes. All files before it were read to their ends.
///
/// `TooLong` exactly where it holds more than `most` bytes; it reads none behind the first byte that is too many.
pub fn read_next<F: Files>(
    alloc: Global,
    files: &mut F,
    id: u32,
    most: usize,
) -> Result<Vec<u8>, ReadFail>
    requires given { id < F.given files.old }
    requires opened { F.tells → (F.store files.old).opened id ≡ true }

    ensures short { IfOk result (λ v. length v.items ≤ most) }
    ensures whole { F.tells → IfOk result (λ v. v.items ≡ left (F.store files.old) id) }
    ensures too_long { F.tells → IsErrOf result ReadFail.TooLong → most < length (left (F.store files.old) id) }
    ensures journal { F.tells → (first : ℕ) → (begun : Store) → (asked : List JobFile) → (ended : ℕ)
        → (places : ℕ → ℕ) → id ≡ first + ended → ended < length asked
        → Progress first begun asked ended places (F.given files.old) (F.store files.old)
        → ReadsNext first begun asked ended places (F.given files.new) (F.store files.new) most result }
    ensures bytes { F.tells → KeepsBytes (F.store files.old) (F.store files.new) }
    ensures given { F.given files.new ≡ F.given files.old }

    ensures later { F.faults files.old ≤ F.faults files.new }
    ensures kept { OnOk result (F.faults files.new ≡ F.faults files.old) }
    ensures kept_too_long { IsErrOf result ReadFail.TooLong → F.faults files.new ≡ F.faults files.old }
    ensures failed { IsErrOf result ReadFail.Failed → Rose (F.faults files.old) (F.faults files.new) }
{
    read_whole(alloc, files, id, most)
}
