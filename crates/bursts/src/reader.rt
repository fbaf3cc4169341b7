ghost use Rattle.std.specs.Prelude.{◌≡◌, ◌≢◌, ℕ, ◌+◌, ◌*◌, ◌%◌, ◌≤◌, ◌<◌, ◌^◌, true, false, length, List, ℤ, All, IfOk, OnOk, None, Some};
ghost use Rattle.int_types.specs.Ranges.{InRange};
ghost use Rattle.soda_io.specs.Store.{content};
ghost use Rattle.array_bytes.specs.Sizes.{cell_size};
ghost use Rattle.array_bytes.specs.ReadNumber.{block_cells, most_asked_at_end};
ghost use Rattle.bursts.specs.Blocks.{BlockIs, EndIs, FailsNow, IsWanted, ReadCause, ReadsOn, Repeats, err_of};
ghost use Rattle.bursts.specs.Readers.{StandsAt, given_by, is_done, kind};

use crate::raw_reader::RawReader;
use crate::source::Source;
use crate::text_reader::TextReader;
use crate::{CellFault, Form};
use int_types::Ty;
use soda_io::{Files, NoMemory};
use std::alloc::Global;

/// Reads the cells of an array's file in order.
///
/// A text is read 4,096 bytes at a time, as far as a cell that is asked for needs it. Raw cells are read a burst word
/// at a time, none before a cell of it is asked for and none of them past the last cell. Nobody else reads by the id or
/// changes the bytes of its name, and after an error a reader answers it again to each later call.
#[derive(Drop)]
pub struct CellReader {
    id: u32,
    source: Source,
    fault: Option<CellFault>,
}

impl CellReader {
    /// A reader of `cells` cells, at most 2^24, by an id that `open` gave and nothing was read by.
    ///
    /// `burst` is the width of a burst word in bits: from 8 to 8,192, and a multiple of the bits of a cell's bytes.
    pub fn new(
        alloc: Global,
        form: Form,
        ty: Ty,
        burst: u32,
        cells: u64,
        id: u32,
    ) -> Result<CellReader, NoMemory>
        requires least { 8 ≤ burst }
        requires most { burst ≤ 8192 }
        requires whole { burst % (8 * cell_size ty) ≡ 0 }
        requires few { cells ≤ 2 ^ 24 }

        ensures kind { IfOk result (λ r. kind r
            ≡ record { form = form; ty = ty; cells = cells; block = block_cells form ty burst; id = id }) }
        ensures given { IfOk result (λ r. given_by r ≡ 0) }
        ensures done { IfOk result (λ r. is_done r ≡ false) }
        ensures fault { IfOk result (λ r. r.fault ≡ None) }
        // It stands at the first byte of any file.
        ensures stands { IfOk result (λ r. (bytes : List ℕ) → StandsAt r bytes 0) }
    {
        match form {
            Form::Text => {
                let reader = TextReader::new(alloc, ty, cells)?;
                Ok(CellReader {
                    id,
                    source: Source::Text(reader),
                    fault: None,
                })
            }
            Form::Raw => {
                let reader = RawReader::new(alloc, ty, burst, cells)?;
                Ok(CellReader {
                    id,
                    source: Source::Raw(reader),
                    fault: None,
                })
            }
        }
    }

    /// Reads the next cells, as many as `out` holds. As many are left.
    ///
    /// Each is in its type's range. The file's first fault is answered exactly where one of these cells has its number
    /// or a greater one; `Failed` where a read failed, and `Memory` where one was refused memory.
    pub fn next_block<F: Files>(&mut self, files: &mut F, out: &mut [i128]) -> Result<(), CellFault>
        requires given { (kind self.old).id < F.given files.old }
        requires opened { F.tells → (F.store files.old).opened (kind self.old).id ≡ true }
        requires left { self.old.fault ≡ None → given_by self.old + length out.old ≤ (kind self.old).cells }
        requires stands { F.tells → StandsAt self.old (content (F.store files.old) (kind self.old).id)
            ((F.store files.old).place (kind self.old).id) }

        ensures kind { kind self.new ≡ kind self.old }
        ensures range { OnOk result (All (λ v. InRange (kind self.old).ty v) out.new) }
        ensures counted { OnOk result (given_by self.new ≡ given_by self.old + length out.old) }
        // It is the next good cells or the first fault.
        ensures block { F.tells → self.old.fault ≡ None
            → BlockIs (kind self.old) (content (F.store files.old) (kind self.old).id)
            (given_by self.old) out.new result }
        // After an Err it is the same Err again.
        ensures again { Repeats self.old.fault result }
        ensures fault { self.new.fault ≡ err_of result }
        ensures stands { F.tells → StandsAt self.new (content (F.store files.new) (kind self.old).id)
            ((F.store files.new).place (kind self.old).id) }
        // After an Err it reads no more.
        ensures quiet { F.tells → self.old.fault ≢ None → (F.store files.new).calls ≡ (F.store files.old).calls }
        // It reads by its own id alone, and no read begins at a number past the cells that are asked for.
        ensures given { F.given files.new ≡ F.given files.old }
        ensures store { F.tells → ReadsOn (F.given files.old) (F.store files.old) (F.store files.new)
            (kind self.old).id (is_done self.old) (is_done self.new) (FailsNow self.old.fault result)
            (IsWanted (kind self.old) (content (F.store files.old) (kind self.old).id)
            (given_by self.old + length out.old)) }
        ensures cause { ReadCause self.old.fault (F.faults files.old) (F.faults files.new) result }
    {
        if let Some(fault) = self.fault {
            return Err(fault);
        }
        let answer = self.source.next_block(files, self.id, out);
        if let Err(fault) = answer {
            self.fault = Some(fault);
        }
        answer
    }

    /// Reads on to the end, where all cells were read.
    ///
    /// Ok exactly where nothing that isn't white space stands behind the cells, and a text isn't too long; else the
    /// file's fault. `Failed` and `Memory` as for `next_block`.
    pub fn end<F: Files>(&mut self, files: &mut F) -> Result<(), CellFault>
        requires given { (kind self.old).id < F.given files.old }
        requires opened { F.tells → (F.store files.old).opened (kind self.old).id ≡ true }
        requires all { self.old.fault ≡ None → given_by self.old ≡ (kind self.old).cells }
        requires stands { F.tells → StandsAt self.old (content (F.store files.old) (kind self.old).id)
            ((F.store files.old).place (kind self.old).id) }

        ensures kind { kind self.new ≡ kind self.old }
        ensures counted { given_by self.new ≡ given_by self.old }
        ensures end { F.tells → self.old.fault ≡ None
            → EndIs (kind self.old) (content (F.store files.old) (kind self.old).id) result }
        ensures again { Repeats self.old.fault result }
        ensures fault { self.new.fault ≡ err_of result }
        ensures done { OnOk result (is_done self.new ≡ true) }
        ensures stands { F.tells → StandsAt self.new (content (F.store files.new) (kind self.old).id)
            ((F.store files.new).place (kind self.old).id) }
        ensures quiet { F.tells → self.old.fault ≢ None → (F.store files.new).calls ≡ (F.store files.old).calls }
        ensures given { F.given files.new ≡ F.given files.old }
        ensures store { F.tells → ReadsOn (F.given files.old) (F.store files.old) (F.store files.new)
            (kind self.old).id (is_done self.old) (is_done self.new) (FailsNow self.old.fault result)
            (λ place asked. asked ≤ most_asked_at_end (kind self.old).form) }
        ensures cause { ReadCause self.old.fault (F.faults files.old) (F.faults files.new) result }
    {
        if let Some(fault) = self.fault {
            return Err(fault);
        }
        let answer = self.source.end(files, self.id);
        if let Err(fault) = answer {
            self.fault = Some(fault);
        }
        answer
    }
}
