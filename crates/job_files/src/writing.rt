ghost use Rattle.std.specs.Prelude.{◌≡◌, ℕ, ◌+◌, ◌<◌, false, List, ◌∷◌, ◌++◌, length};
ghost use Rattle.soda_io.specs.Cause.{HasCause};
ghost use Rattle.soda_io.specs.Store.{Store};
ghost use Rattle.job_files.specs.Contents.{Holding, Holds, PutsTo};
ghost use Rattle.job_files.specs.Files.{JobFile};
ghost use Rattle.job_files.specs.Progress.{Progress};
ghost use Rattle.job_files.specs.Steps.{WritesTo};

use soda_io::{Files, IoErr};
use whole_files::write_whole;

/// Appends all the bytes to the file of this id, which came from `create`.
///
/// After an error a prefix of them was appended. `Failed` exactly where a write failed, and it writes nothing after it.
pub fn write_to<F: Files>(files: &mut F, id: u32, bytes: &[u8]) -> Result<(), IoErr>
    requires given { id < F.given files.old }
    requires created { F.tells → (F.store files.old).opened id ≡ false }

    ensures journal { F.tells → (first : ℕ) → (begun : Store) → (asked : List JobFile) → (ended : ℕ)
        → (places : ℕ → ℕ) → (n : ℕ) → id ≡ first + n → n < length asked
        → Progress first begun asked ended places (F.given files.old) (F.store files.old)
        → WritesTo first begun asked ended places (F.given files.new) (F.store files.new) n result }
    ensures puts { F.tells → (before : Holding) → (front back : List (List ℕ × List ℕ)) → (name so_far : List ℕ)
        → (F.store files.old).name id ≡ name
        → Holds before (F.store files.old).bytes (front ++ (name, so_far) ∷ back)
        → PutsTo before (F.store files.new).bytes front name so_far back bytes.now result }
    ensures given { F.given files.new ≡ F.given files.old }
    ensures cause { HasCause (F.faults files.old) (F.faults files.new) result }
{
    write_whole(files, id, bytes)
}
