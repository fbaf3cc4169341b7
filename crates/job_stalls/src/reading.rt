ghost use Rattle.std.specs.Prelude.{◌≡◌, ℕ, ◌+◌, true, List, length, IfOk, OnOk, IsErrOf, Err};
ghost use Rattle.soda_io.specs.Cause.{Rose};
ghost use Rattle.soda_io.specs.Store.{KeepsBytes, Store};
ghost use Rattle.soda_ir.specs.Program.{plain};
ghost use Rattle.job_files.specs.Files.{JobFile, asking};
ghost use Rattle.job_files.specs.Progress.{Progress};
ghost use Rattle.job_stalls.specs.StallFiles.{IsRefusedAt, ListsStalls, ReadsStalls};

use crate::StallFail;
use job_texts::read_text;
use sim_lines::{LineFail, MOST_STALL_BYTES, Stall, read_stalls};
use soda_io::Files;
use soda_ir::Program;
use std::alloc::Global;
use whole_files::ReadFail;

/// Opens the stall file of a job, reads it to its end and gives the stalls that it lists for a program, in the order of
/// the file. All files of the job before it were read to their ends.
///
/// `Line(0)` where it is longer than `MOST_STALL_BYTES`; none behind the first byte that is too many is read. Else
/// `Line` with the first line, from 1, that isn't the number of a cycle and the name of an input or output.
pub fn read_stall_file<F: Files>(
    alloc: Global,
    files: &mut F,
    name: &str,
    program: &Program,
) -> Result<Vec<Stall>, StallFail>
    ensures listed { F.tells → IfOk result (λ stalls. ListsStalls (plain program.now) (F.store files.old).bytes name.now
        stalls.items) }
    ensures refused { F.tells → (line : ℕ) → result ≡ Err (StallFail.Line line)
        → IsRefusedAt (plain program.now) (F.store files.old).bytes name.now line }
    ensures journal { F.tells → (first : ℕ) → (begun : Store) → (asked : List JobFile) → (places : ℕ → ℕ)
        → (f : JobFile) → asking f ≡ (true, name.now)
        → Progress first begun asked (length asked) places (F.given files.old) (F.store files.old)
        → ReadsStalls first begun asked places (F.given files.new) (F.store files.new) f result }
    ensures bytes { F.tells → KeepsBytes (F.store files.old) (F.store files.new) }
    ensures given { OnOk result (F.given files.new ≡ F.given files.old + 1) }

    ensures kept { OnOk result (F.faults files.new ≡ F.faults files.old) }
    ensures kept_line { (line : ℕ) → result ≡ Err (StallFail.Line line) → F.faults files.new ≡ F.faults files.old }
    ensures failed { IsErrOf result StallFail.Failed → Rose (F.faults files.old) (F.faults files.new) }
{
    let text = match read_text(alloc, files, name, MOST_STALL_BYTES) {
        Ok(text) => text,
        Err(ReadFail::TooLong) => return Err(StallFail::Line(0)),
        Err(ReadFail::Failed) => return Err(StallFail::Failed),
        Err(ReadFail::Memory) => return Err(StallFail::Memory),
    };
    let found = read_stalls(alloc, program, &text);
    drop(text);
    match found {
        Ok(stalls) => Ok(stalls),
        Err(LineFail::Line(line)) => Err(StallFail::Line(line)),
        Err(LineFail::Memory) => Err(StallFail::Memory),
    }
}
