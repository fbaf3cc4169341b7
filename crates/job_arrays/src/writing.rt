ghost use Rattle.std.specs.Prelude.{◌≡◌, ℕ, ◌+◌, ◌<◌, ◌≤◌, false, List, [], ◌∷◌, ◌++◌, length, Some, All};
ghost use Rattle.soda_io.specs.Cause.{HasCause};
ghost use Rattle.soda_io.specs.Store.{Store};
ghost use Rattle.int_types.specs.Ranges.{InRange};
ghost use Rattle.soda_words.specs.Limits.{most_cells};
ghost use Rattle.soda_eval.specs.Runs.{IsArray};
ghost use Rattle.array_bytes.specs.Written.{array_bytes};
ghost use Rattle.bursts.specs.Blocks.{WritesOn};
ghost use Rattle.bursts.specs.Writers.{Finishes, HasPut, output};
ghost use Rattle.job_files.specs.Contents.{Holding, Holds, PutsTo};
ghost use Rattle.job_files.specs.Files.{JobFile};
ghost use Rattle.job_files.specs.Progress.{Progress};
ghost use Rattle.job_files.specs.Steps.{WritesTo};
ghost use Rattle.job_arrays.specs.Arrays.{FillBurst};

use crate::Layout;
use bursts::CellWriter;
use soda_io::{Files, IoErr};
use soda_words::Ty;
use std::alloc::Global;

/// Writes an array to the file of this id, which came from `create` and to which nothing was written.
///
/// After an error a prefix of its bytes was written. `Failed` exactly where a write failed, and it writes nothing after
/// it.
pub fn write_array<F: Files>(
    alloc: Global,
    files: &mut F,
    id: u32,
    ty: Ty,
    layout: Layout,
    cells: &[i128],
) -> Result<(), IoErr>
    requires given { id < F.given files.old }
    requires created { F.tells → (F.store files.old).opened id ≡ false }
    requires small { layout.cells ≤ most_cells }
    requires some { 0 < layout.run }
    requires burst { FillBurst layout.burst ty }
    requires array { IsArray ty layout.cells cells.now }

    ensures journal { F.tells → (first : ℕ) → (begun : Store) → (asked : List JobFile) → (ended : ℕ)
        → (places : ℕ → ℕ) → (n : ℕ) → id ≡ first + n → n < length asked
        → Progress first begun asked ended places (F.given files.old) (F.store files.old)
        → WritesTo first begun asked ended places (F.given files.new) (F.store files.new) n result }
    ensures puts { F.tells → (before : Holding) → (front back : List (List ℕ × List ℕ)) → (name : List ℕ)
        → (F.store files.old).name id ≡ name
        → Holds before (F.store files.old).bytes (front ++ (name, []) ∷ back)
        → PutsTo before (F.store files.new).bytes front name [] back (array_bytes layout.form ty layout.run cells.now)
        result }
    ensures given { F.given files.new ≡ F.given files.old }
    ensures cause { HasCause (F.faults files.old) (F.faults files.new) result }
{
    let burst = layout.burst as u32;
    let Ok(mut writer) = CellWriter::new(alloc, layout.form, ty, burst, layout.run, id) else {
        return Err(IoErr::Memory);
    };
    let answer = write_all(files, &mut writer, cells);
    drop(writer);
    answer
}

// Writes all cells, by a writer that has put none.
fn write_all<F: Files>(files: &mut F, writer: &mut CellWriter, cells: &[i128]) -> Result<(), IoErr>
    requires given { (output writer.old).id < F.given files.old }
    requires created { F.tells → (F.store files.old).opened (output writer.old).id ≡ false }
    requires none { HasPut writer.old [] [] }
    requires range { All (λ v. InRange (output writer.old).ty v) cells.now }

    ensures written { F.tells → (F.store files.old).bytes ((F.store files.old).name (output writer.old).id) ≡ Some []
        → Finishes (output writer.old) cells.now
        ((F.store files.new).bytes ((F.store files.old).name (output writer.old).id)) result }
    ensures store { F.tells → WritesOn (F.given files.old) (F.store files.old) (F.store files.new)
        (output writer.old).id result }
    ensures given { F.given files.new ≡ F.given files.old }
    ensures cause { HasCause (F.faults files.old) (F.faults files.new) result }
{
    writer.put(files, cells)?;
    writer.finish(files)
}
