ghost use Rattle.std.specs.Prelude.{◌≡◌, ℕ, ◌+◌, ◌≤◌, ◌<◌, ◌^◌, true, false, length, vec_len, List, ℤ, map, take, IfOk, Some, None};
ghost use Rattle.int_types.specs.Ranges.{wrapped};
ghost use Rattle.soda_io.specs.Cause.{HasCause};
ghost use Rattle.bursts.specs.Blocks.{WritesOn};
ghost use Rattle.bursts.specs.Writers.{Finishes, HasPut, Puts, output};

use crate::span::{cell_count, first_lane};
use bursts::CellWriter;
use int_types::{Ty, wrap};
use soda_io::{Files, IoErr, NoMemory};
use std::alloc::Global;

/// The cells of an output, written firing by firing.
///
/// Firing `k` is, at each lane `r`, about the cell numbered `unroll * k + r - delay`. What a lane holds whose cell
/// isn't there is let go.
#[derive(Drop)]
pub struct SinkModule {
    writer: CellWriter,
    ty: Ty,
    unroll: u32,
    delay: u64,
    cells: u64,
    // The cells of a firing, in the type's range.
    block: Vec<i128>,
    ghost most: { unroll ≤ 64 },
    ghost room: { vec_len block ≡ unroll },
    ghost of_writer: { ty ≡ (output writer).ty },
}

// The values wrapped to the type, at the front of a block.
fn wrap_all(ty: Ty, block: &mut Vec<i128>, values: &[i128])
    requires { length values.now ≤ vec_len block.old }
    ensures front { take (length values.now) block.new.items ≡ map (wrapped ty) values.now }
    ensures size { vec_len block.new ≡ vec_len block.old }
{
    for i in 0..values.len() {
        block[i] = wrap(ty, values[i]);
    }
}

impl SinkModule {
    ghost use Rattle.file_modules.specs.Modules.{Sink, handed_by, sink};

    /// A sink over a writer of this type that has put no cells. The output has so many cells.
    ///
    /// `unroll` is from 1 to 64. All memory that it needs is taken here.
    pub fn new(
        alloc: Global,
        writer: CellWriter,
        ty: Ty,
        cells: u64,
        unroll: u32,
        delay: u64,
    ) -> Result<SinkModule, NoMemory>
        requires ty { ty ≡ (output writer).ty }
        requires some { 0 < unroll }
        requires most { unroll ≤ 64 }

        ensures sink { IfOk result (λ m. sink m
            ≡ record { output = output writer; cells = cells; unroll = unroll; delay = delay }) }
        ensures writer { IfOk result (λ m. m.writer ≡ writer) }
    {
        match vec![in alloc; 0; unroll as usize] {
            Ok(block) => Ok(SinkModule {
                writer,
                ty,
                unroll,
                delay,
                cells,
                block,
            }),
            Err(error) => {
                drop(writer);
                Err(error)
            }
        }
    }

    /// Writes the cells of a firing, one of which follows the other from 0 on. The firing is below 2^40, and each lane
    /// has a port. No earlier call of `fire` or `finish` answered an error, and `finish` wasn't called.
    ///
    /// Each value is wrapped to the type; one in its range stays as it is.
    pub fn fire<F: Files>(
        &mut self,
        files: &mut F,
        firing: u64,
        ports: &[i128],
    ) -> Result<(), IoErr>
        requires ports { length ports.now ≡ self.old.unroll }
        requires given { (output self.old.writer).id < F.given files.old }
        requires created { F.tells → (F.store files.old).opened (output self.old.writer).id ≡ false }
        requires small { firing < 2 ^ 40 }

        ensures kept { sink self.new ≡ sink self.old }
        // The cells that were put before are put, and those of this firing behind them.
        ensures put { F.tells → (before : List ℤ) → (bytes : List ℕ)
            → (F.store files.old).bytes ((F.store files.old).name (output self.old.writer).id) ≡ Some bytes
            → HasPut self.old.writer before bytes
            → Puts self.new.writer before
            (map (wrapped (output self.old.writer).ty) (handed_by (sink self.old) firing ports.now))
            ((F.store files.new).bytes ((F.store files.new).name (output self.old.writer).id)) result }
        ensures given { F.given files.new ≡ F.given files.old }
        ensures store { F.tells → WritesOn (F.given files.old) (F.store files.old) (F.store files.new)
            (output self.old.writer).id result }
        ensures cause { HasCause (F.faults files.old) (F.faults files.new) result }
    {
        let first = first_lane(self.unroll, self.delay, firing);
        let count = cell_count(self.unroll, self.delay, self.cells, firing);
        wrap_all(self.ty, &mut self.block, &ports[first..first + count]);
        self.writer.put(files, &self.block[..count])
    }

    /// Writes what isn't written yet, under the conditions of `fire`.
    ///
    /// At Ok the file holds the bytes of the cells written, and after an error a prefix of them.
    pub fn finish<F: Files>(&mut self, files: &mut F) -> Result<(), IoErr>
        requires given { (output self.old.writer).id < F.given files.old }
        requires created { F.tells → (F.store files.old).opened (output self.old.writer).id ≡ false }

        ensures kept { sink self.new ≡ sink self.old }
        ensures finished { F.tells → (before : List ℤ) → (bytes : List ℕ)
            → (F.store files.old).bytes ((F.store files.old).name (output self.old.writer).id) ≡ Some bytes
            → HasPut self.old.writer before bytes
            → Finishes (output self.old.writer) before
            ((F.store files.new).bytes ((F.store files.new).name (output self.old.writer).id)) result }
        ensures given { F.given files.new ≡ F.given files.old }
        ensures store { F.tells → WritesOn (F.given files.old) (F.store files.old) (F.store files.new)
            (output self.old.writer).id result }
        ensures cause { HasCause (F.faults files.old) (F.faults files.new) result }
    {
        self.writer.finish(files)
    }
}
