ghost use Rattle.std.specs.Prelude.{◌≡◌, ℕ, ◌+◌, ◌≤◌, true, List, All, length, map, IfOk, OnOk};
ghost use Rattle.soda_io.specs.Cause.{HasCause, Rose};
ghost use Rattle.soda_io.specs.Store.{Gives, KeepsBytes, Store};
ghost use Rattle.job_files.specs.Contents.{IsThere};
ghost use Rattle.job_files.specs.Files.{JobFile, asking, ids_from, names_of};
ghost use Rattle.job_files.specs.Progress.{Progress};
ghost use Rattle.job_files.specs.Steps.{AsksAll, AsksNext, IfFailed};

use crate::StepFail;
use soda_io::{Files, IoErr};
use std::alloc::Global;

/// Opens one more file of a job.
pub fn open_next<F: Files>(files: &mut F, name: &str) -> Result<u32, IoErr>
    ensures id { Gives (F.given files.old) (F.given files.new) result }
    ensures journal { F.tells → (first : ℕ) → (begun : Store) → (asked : List JobFile) → (ended : ℕ)
        → (places : ℕ → ℕ) → (f : JobFile) → asking f ≡ (true, name.now)
        → Progress first begun asked ended places (F.given files.old) (F.store files.old)
        → AsksNext first begun asked ended places (F.given files.new) (F.store files.new) f result }
    ensures there { F.tells → OnOk result (IsThere (F.store files.old).bytes name.now) }
    ensures bytes { F.tells → KeepsBytes (F.store files.old) (F.store files.new) }
    ensures cause { HasCause (F.faults files.old) (F.faults files.new) result }
{
    files.open(name)
}

/// Opens more files of a job, in order, and gives their ids. After a call that failed it makes no other.
pub fn open_all<F: Files>(
    alloc: Global,
    files: &mut F,
    names: &[&str],
) -> Result<Vec<u32>, StepFail>
    ensures ids { IfOk result (λ ids. ids.items ≡ ids_from (F.given files.old) (length names.now)) }
    ensures given { OnOk result (F.given files.new ≡ F.given files.old + length names.now) }
    ensures given_failed { IfFailed result (λ n. F.given files.new ≡ F.given files.old + n) }
    ensures journal { F.tells → (first : ℕ) → (begun : Store) → (asked : List JobFile) → (ended : ℕ)
        → (places : ℕ → ℕ) → (more : List JobFile) → map asking more ≡ map (λ name. (true, name)) (names_of names.now)
        → Progress first begun asked ended places (F.given files.old) (F.store files.old)
        → AsksAll first begun asked ended places (F.given files.new) (F.store files.new) more result }
    ensures there { F.tells → OnOk result (All (IsThere (F.store files.old).bytes) (names_of names.now)) }
    ensures bytes { F.tells → KeepsBytes (F.store files.old) (F.store files.new) }

    ensures later { F.faults files.old ≤ F.faults files.new }
    ensures kept { OnOk result (F.faults files.new ≡ F.faults files.old) }
    ensures failed { IfFailed result (λ n. Rose (F.faults files.old) (F.faults files.new)) }
{
    let mut ids = Vec::new(alloc);
    for &name in names {
        match open_next(files, name) {
            Ok(id) => {
                let Ok(()) = ids.push(id) else {
                    return Err(StepFail::Memory);
                };
            }
            Err(IoErr::Failed) => return Err(StepFail::Failed(ids.len() as u32)),
            Err(IoErr::Memory) => return Err(StepFail::Memory),
        }
    }
    Ok(ids)
}
