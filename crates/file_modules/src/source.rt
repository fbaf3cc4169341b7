ghost use Rattle.std.specs.Prelude.{◌≡◌, ◌≢◌, ℕ, ◌+◌, ◌*◌, ◌≤◌, ◌<◌, ◌^◌, true, false, length, vec_len, List, ℤ, All, IfOk, OnOk, None};
ghost use Rattle.int_types.specs.Ranges.{InRange};
ghost use Rattle.soda_io.specs.Store.{content};
ghost use Rattle.array_bytes.specs.ReadNumber.{most_asked_at_end};
ghost use Rattle.bursts.specs.Blocks.{EndIs, FailsNow, IsWanted, ReadCause, ReadsOn, Repeats, cells_in, err_of};
ghost use Rattle.bursts.specs.Readers.{StandsAt, given_by, is_done, kind};
ghost use Rattle.file_modules.specs.Firings.{lanes_of};

use crate::span::{cell_count, first_lane};
use bursts::{CellFault, CellReader};
use soda_io::{Files, NoMemory};
use std::alloc::Global;

/// The cells of an input, read firing by firing.
///
/// Firing `k` is, at each lane `r`, about the cell numbered `unroll * k + r - delay`. A lane whose cell isn't there
/// holds 0.
#[derive(Drop)]
pub struct SourceModule {
    reader: CellReader,
    unroll: u32,
    delay: u64,
    cells: u64,
    // What each lane holds, after a firing.
    lanes: Vec<i128>,
    ghost some: { 0 < unroll },
    ghost most: { unroll ≤ 64 },
    ghost whole: { vec_len lanes ≡ unroll },
    ghost of_reader: { cells ≡ (kind reader).cells },
}

impl SourceModule {
    ghost use Rattle.file_modules.specs.Modules.{FaultIs, Source, read_before, source};

    /// A source over a reader of so many cells, of which none was read.
    ///
    /// `unroll` is from 1 to 64. All memory that it needs is taken here.
    pub fn new(
        alloc: Global,
        reader: CellReader,
        cells: u64,
        unroll: u32,
        delay: u64,
    ) -> Result<SourceModule, NoMemory>
        requires cells { cells ≡ (kind reader).cells }
        requires some { 0 < unroll }
        requires most { unroll ≤ 64 }

        ensures source { IfOk result (λ m. source m
            ≡ record { kind = kind reader; unroll = unroll; delay = delay }) }
        ensures reader { IfOk result (λ m. m.reader ≡ reader) }
    {
        match vec![in alloc; 0; unroll as usize] {
            Ok(lanes) => Ok(SourceModule {
                reader,
                unroll,
                delay,
                cells,
                lanes,
            }),
            Err(error) => {
                drop(reader);
                Err(error)
            }
        }
    }

    /// Reads the cells of a firing, one of which follows the other from 0 on. The firing is below 2^40.
    ///
    /// The file's first fault is answered exactly where one of these cells has its number or a greater one; `Failed`
    /// where a read failed, and `Memory` where one was refused memory.
    pub fn fire<F: Files>(&mut self, files: &mut F, firing: u64) -> Result<(), CellFault>
        requires given { (kind self.old.reader).id < F.given files.old }
        requires opened { F.tells → (F.store files.old).opened (kind self.old.reader).id ≡ true }
        requires count { self.old.reader.fault ≡ None
            → given_by self.old.reader ≡ read_before (source self.old) firing }
        requires stands { F.tells → StandsAt self.old.reader (content (F.store files.old) (kind self.old.reader).id)
            ((F.store files.old).place (kind self.old.reader).id) }
        requires small { firing < 2 ^ 40 }

        ensures kept { source self.new ≡ source self.old }
        ensures counted { OnOk result (given_by self.new.reader ≡ read_before (source self.old) (firing + 1)) }
        // The lanes hold the cells of this firing, which are all good.
        ensures sent { F.tells → self.old.reader.fault ≡ None → OnOk result
            ((self.new.lanes.items ≡ lanes_of self.old.unroll self.old.delay (kind self.old.reader).cells
            (cells_in (kind self.old.reader) (content (F.store files.old) (kind self.old.reader).id)) firing)
            × (read_before (source self.old) (firing + 1)
            ≤ length (cells_in (kind self.old.reader) (content (F.store files.old) (kind self.old.reader).id)))) }
        ensures range { OnOk result (All (λ v. InRange (kind self.old.reader).ty v) self.new.lanes.items) }
        ensures block { F.tells → self.old.reader.fault ≡ None
            → FaultIs (kind self.old.reader) (content (F.store files.old) (kind self.old.reader).id)
            (read_before (source self.old) (firing + 1)) result }
        // After an Err it is the same Err again, and it reads no more.
        ensures again { Repeats self.old.reader.fault result }
        ensures fault { self.new.reader.fault ≡ err_of result }
        ensures stands { F.tells → StandsAt self.new.reader (content (F.store files.new) (kind self.old.reader).id)
            ((F.store files.new).place (kind self.old.reader).id) }
        ensures quiet { F.tells → self.old.reader.fault ≢ None
            → (F.store files.new).calls ≡ (F.store files.old).calls }
        // It reads by its own id alone, and no read begins at a number past the cells of this firing.
        ensures given { F.given files.new ≡ F.given files.old }
        ensures store { F.tells → ReadsOn (F.given files.old) (F.store files.old) (F.store files.new)
            (kind self.old.reader).id (is_done self.old.reader) (is_done self.new.reader)
            (FailsNow self.old.reader.fault result)
            (IsWanted (kind self.old.reader) (content (F.store files.old) (kind self.old.reader).id)
            (read_before (source self.old) (firing + 1))) }
        ensures cause { ReadCause self.old.reader.fault (F.faults files.old) (F.faults files.new) result }
    {
        let first = first_lane(self.unroll, self.delay, firing);
        let count = cell_count(self.unroll, self.delay, self.cells, firing);
        self.lanes.fill(0);
        self.reader
            .next_block(files, &mut self.lanes[first..first + count])
    }

    /// What each lane holds, after a firing.
    pub fn lanes(&self) -> &[i128]
        ensures value { result.now ≡ self.now.lanes.items }
        ensures whole { length result.now ≡ self.now.unroll }
    {
        self.lanes.as_slice()
    }

    /// Reads on to the end of the file, where all cells were read.
    ///
    /// Ok exactly where nothing that isn't white space stands behind the cells, and a text isn't too long; else the
    /// file's fault. `Failed` and `Memory` as for `fire`.
    pub fn end<F: Files>(&mut self, files: &mut F) -> Result<(), CellFault>
        requires given { (kind self.old.reader).id < F.given files.old }
        requires opened { F.tells → (F.store files.old).opened (kind self.old.reader).id ≡ true }
        requires all { self.old.reader.fault ≡ None → given_by self.old.reader ≡ (kind self.old.reader).cells }
        requires stands { F.tells → StandsAt self.old.reader (content (F.store files.old) (kind self.old.reader).id)
            ((F.store files.old).place (kind self.old.reader).id) }

        ensures kept { source self.new ≡ source self.old }
        ensures counted { given_by self.new.reader ≡ given_by self.old.reader }
        ensures end { F.tells → self.old.reader.fault ≡ None
            → EndIs (kind self.old.reader) (content (F.store files.old) (kind self.old.reader).id) result }
        ensures again { Repeats self.old.reader.fault result }
        ensures fault { self.new.reader.fault ≡ err_of result }
        ensures done { OnOk result (is_done self.new.reader ≡ true) }
        ensures stands { F.tells → StandsAt self.new.reader (content (F.store files.new) (kind self.old.reader).id)
            ((F.store files.new).place (kind self.old.reader).id) }
        ensures quiet { F.tells → self.old.reader.fault ≢ None
            → (F.store files.new).calls ≡ (F.store files.old).calls }
        ensures given { F.given files.new ≡ F.given files.old }
        ensures store { F.tells → ReadsOn (F.given files.old) (F.store files.old) (F.store files.new)
            (kind self.old.reader).id (is_done self.old.reader) (is_done self.new.reader)
            (FailsNow self.old.reader.fault result)
            (λ place asked. asked ≤ most_asked_at_end (kind self.old.reader).form) }
        ensures cause { ReadCause self.old.reader.fault (F.faults files.old) (F.faults files.new) result }
    {
        self.reader.end(files)
    }
}
