ghost use Rattle.std.specs.Prelude.{◌≡◌, ℕ, ◌+◌, ◌<◌, ◌≤◌, true, false, List, length, None, IfOk, IsErrOf, OnOk};
ghost use Rattle.soda_io.specs.Cause.{Rose};
ghost use Rattle.soda_io.specs.Store.{KeepsBytes, Store, content, left};
ghost use Rattle.soda_words.specs.Limits.{most_cells};
ghost use Rattle.soda_eval.specs.Runs.{IsArray};
ghost use Rattle.job_files.specs.Files.{JobFile};
ghost use Rattle.job_files.specs.Progress.{Progress};
ghost use Rattle.bursts.specs.Blocks.{ReadCause};
ghost use Rattle.bursts.specs.Readers.{StandsAt, given_by, is_done, kind};
ghost use Rattle.job_arrays.specs.Arrays.{FillBurst, IfOfBytes, IsFaulty, IsGood};
ghost use Rattle.job_arrays.specs.Machine.OneFile.{CellsAre, ReadsFile};
ghost use Rattle.job_arrays.specs.Steps.{ReadsArray};

use crate::Layout;
use array_bytes::CellFault;
use bursts::CellReader;
use soda_io::Files;
use soda_words::Ty;
use sqlite_items::Items;
use std::alloc::Global;

/// Reads the next file of a job, which holds an array, to its end. All files before it were read to their ends, and
/// nothing was read of it. At a fault of its bytes it stops, at the end or before.
pub fn read_array<F: Files>(
    alloc: Global,
    files: &mut F,
    id: u32,
    ty: Ty,
    layout: Layout,
) -> Result<Items<i128>, CellFault>
    requires given { id < F.given files.old }
    requires opened { F.tells → (F.store files.old).opened id ≡ true }
    requires unread { F.tells → (F.store files.old).place id ≡ 0 }
    requires small { layout.cells ≤ most_cells }
    requires burst { FillBurst layout.burst ty }

    ensures array { IfOk result (λ cells. IsArray ty layout.cells cells) }
    ensures good { F.tells → IfOk result (λ cells. IsGood layout.form ty layout.cells (left (F.store files.old) id)
        cells) }
    ensures faulty { F.tells → IfOfBytes result (λ fault. IsFaulty layout.form ty layout.cells
        (left (F.store files.old) id) fault) }
    ensures journal { F.tells → (first : ℕ) → (begun : Store) → (asked : List JobFile) → (ended : ℕ)
        → (places : ℕ → ℕ) → id ≡ first + ended → ended < length asked
        → Progress first begun asked ended places (F.given files.old) (F.store files.old)
        → ReadsArray first begun asked ended places (F.given files.new) (F.store files.new) result }
    ensures bytes { F.tells → KeepsBytes (F.store files.old) (F.store files.new) }
    ensures given { F.given files.new ≡ F.given files.old }

    ensures later { F.faults files.old ≤ F.faults files.new }
    ensures kept { OnOk result (F.faults files.new ≡ F.faults files.old) }
    ensures kept_faulty { IfOfBytes result (λ fault. F.faults files.new ≡ F.faults files.old) }
    ensures failed { IsErrOf result CellFault.Failed → Rose (F.faults files.old) (F.faults files.new) }
{
    let Ok(mut cells) = vec![in alloc; 0; layout.cells as usize] else {
        return Err(CellFault::Memory);
    };
    match fill(alloc, files, id, ty, layout, &mut cells) {
        Ok(()) => Ok(Items::from_vec(cells)),
        Err(fault) => {
            drop(cells);
            Err(fault)
        }
    }
}

// Reads the cells of a file, as many as it is to have, and on to its end.
fn fill<F: Files>(
    alloc: Global,
    files: &mut F,
    id: u32,
    ty: Ty,
    layout: Layout,
    out: &mut [i128],
) -> Result<(), CellFault>
    requires given { id < F.given files.old }
    requires opened { F.tells → (F.store files.old).opened id ≡ true }
    requires unread { F.tells → (F.store files.old).place id ≡ 0 }
    requires small { layout.cells ≤ most_cells }
    requires burst { FillBurst layout.burst ty }
    requires whole { length out.old ≡ layout.cells }

    ensures array { OnOk result (IsArray ty layout.cells out.new) }
    ensures cells { F.tells → CellsAre layout.form ty layout.cells (content (F.store files.old) id) out.new result }
    ensures store { F.tells → ReadsFile (F.given files.old) (F.store files.old) (F.store files.new) id result }
    ensures given { F.given files.new ≡ F.given files.old }
    ensures cause { ReadCause None (F.faults files.old) (F.faults files.new) result }
{
    let burst = layout.burst as u32;
    let Ok(mut reader) = CellReader::new(alloc, layout.form, ty, burst, layout.cells, id) else {
        return Err(CellFault::Memory);
    };
    let answer = read_all(files, &mut reader, out);
    drop(reader);
    answer
}

// Reads all cells, and on to the end.
fn read_all<F: Files>(
    files: &mut F,
    reader: &mut CellReader,
    out: &mut [i128],
) -> Result<(), CellFault>
    requires given { (kind reader.old).id < F.given files.old }
    requires opened { F.tells → (F.store files.old).opened (kind reader.old).id ≡ true }
    requires fine { reader.old.fault ≡ None }
    requires none { given_by reader.old ≡ 0 }
    requires begins { is_done reader.old ≡ false }
    requires whole { length out.old ≡ (kind reader.old).cells }
    requires stands { F.tells → StandsAt reader.old (content (F.store files.old) (kind reader.old).id)
        ((F.store files.old).place (kind reader.old).id) }

    ensures array { OnOk result (IsArray (kind reader.old).ty (kind reader.old).cells out.new) }
    ensures cells { F.tells → CellsAre (kind reader.old).form (kind reader.old).ty (kind reader.old).cells
        (content (F.store files.old) (kind reader.old).id) out.new result }
    ensures store { F.tells → ReadsFile (F.given files.old) (F.store files.old) (F.store files.new)
        (kind reader.old).id result }
    ensures given { F.given files.new ≡ F.given files.old }
    ensures cause { ReadCause None (F.faults files.old) (F.faults files.new) result }
{
    reader.next_block(files, out)?;
    reader.end(files)
}
