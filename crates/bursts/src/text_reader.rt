// Reading the cells of a text.
ghost use Rattle.std.specs.Prelude.{◌≡◌, ℕ, ◌+◌, ◌-◌, ◌≤◌, ◌<◌, ◌^◌, true, false, length, List, ℤ, ◌++◌, [], All, None, vec_len, IfOk, OnOk, IsErrOf};
ghost use Rattle.int_types.specs.Ranges.{InRange};
ghost use Rattle.soda_io.specs.Store.{content};

use crate::feed::Feed;
use array_bytes::{CellFault, Found, TextScan};
use int_types::Ty;
use soda_io::{Files, NoMemory};
use std::alloc::Global;

// How many bytes a text's reader asks for at once, at most.
const BLOCK: usize = 4096;

#[derive(Drop)]
pub(crate) struct TextReader {
    pub(crate) feed: Feed,
    pub(crate) scan: TextScan,
    ghost block: { vec_len feed.buffer ≡ 4096 },
}

impl TextReader {
    ghost use Rattle.array_bytes.specs.Machine.Scans.{Counts, IfCell, IfFault, IsOfFile, KeepsKind};
    ghost use Rattle.bursts.specs.Blocks.{IsWanted, ReadCause, ReadsOn};
    ghost use Rattle.bursts.specs.Machine.Calls.{EndOf, IfNext, NextIs, OneIs, OrReadFault, SomeAre, StepsNext, StepsOne};
    ghost use Rattle.bursts.specs.Machine.Feeds.{unread};
    ghost use Rattle.bursts.specs.Machine.Sources.{HasBytes, IsAtEnd, ScansOn, TextAt, WasScanned, text_kind};

    // A reader of so many cells, at most 2^24.
    pub(crate) fn new(alloc: Global, ty: Ty, cells: u64) -> Result<TextReader, NoMemory>
        requires few { cells ≤ 2 ^ 24 }
        ensures ty { IfOk result (λ r. r.scan.ty ≡ ty) }
        ensures cells { IfOk result (λ r. r.scan.cells ≡ cells) }
        ensures number { IfOk result (λ r. r.scan.number ≡ 0) }
        ensures ended { IfOk result (λ r. r.feed.ended ≡ false) }
        ensures at { IfOk result (λ r. (bytes : List ℕ) → TextAt r bytes 0 []) }
    {
        let feed = Feed::new(alloc, BLOCK)?;
        Ok(TextReader {
            feed,
            scan: TextScan::new(ty, cells),
        })
    }

    // What the bytes that were read but not used end in. They are used up to there.
    fn scan_on(&mut self) -> Found
        requires { self.old.feed.start < self.old.feed.filled }
        ensures kind { KeepsKind self.old.scan self.new.scan }
        ensures next { Counts self.old.scan.number self.new.scan.number result }
        ensures range { IfCell (InRange self.old.scan.ty) result }
        ensures own { IfFault IsOfFile result }
        ensures spent { WasScanned self.old.scan.left self.new.scan.left self.new.feed.start
            self.new.feed.filled result }
        ensures ended { self.new.feed.ended ≡ self.old.feed.ended }
        ensures at { (bytes : List ℕ) → (place : ℕ) → (cells : List ℤ) → TextAt self.old bytes place cells
            → ScansOn self.new bytes place cells result }
    {
        let (count, found) = self.scan.scan(self.feed.unread());
        self.feed.skip(count);
        found
    }

    // Whether there are bytes that aren't used, after one more read where there were none.
    fn has_bytes<F: Files>(&mut self, files: &mut F, id: u32) -> Result<bool, CellFault>
        requires given { id < F.given files.old }
        requires opened { F.tells → (F.store files.old).opened id ≡ true }
        ensures given { F.given files.new ≡ F.given files.old }
        ensures still { F.tells → (F.store files.new).opened id ≡ true }
        ensures scan { self.new.scan ≡ self.old.scan }
        ensures bytes { HasBytes self.new result }
        ensures at { F.tells → (cells : List ℤ)
            → TextAt self.old (content (F.store files.old) id) ((F.store files.old).place id) cells
            → TextAt self.new (content (F.store files.old) id) ((F.store files.new).place id) cells }
        ensures reads { F.tells → (cells : List ℤ) → (bound : ℕ)
            → TextAt self.old (content (F.store files.old) id) ((F.store files.old).place id) cells
            → length cells < bound
            → ReadsOn (F.given files.old) (F.store files.old) (F.store files.new) id self.old.feed.ended
            self.new.feed.ended (IsErrOf result CellFault.Failed)
            (IsWanted (text_kind self.old id) (content (F.store files.old) id) bound) }
        ensures cause { ReadCause None (F.faults files.old) (F.faults files.new) result }
    {
        if self.feed.count() > 0 {
            return Ok(true);
        }
        self.feed.restart();
        self.feed.fill(files, id, BLOCK)
    }

    // The next cell that white space ends, and None at the end of the file.
    fn next_ended<F: Files>(&mut self, files: &mut F, id: u32) -> Result<Option<i128>, CellFault>
        requires given { id < F.given files.old }
        requires opened { F.tells → (F.store files.old).opened id ≡ true }
        ensures given { F.given files.new ≡ F.given files.old }
        ensures still { F.tells → (F.store files.new).opened id ≡ true }
        ensures kind { KeepsKind self.old.scan self.new.scan }
        ensures next { StepsNext self.old.scan.number self.new.scan.number result }
        ensures range { IfNext (InRange self.old.scan.ty) result }
        ensures end { IsAtEnd self.new result }
        ensures at { F.tells → (cells : List ℤ)
            → TextAt self.old (content (F.store files.old) id) ((F.store files.old).place id) cells
            → NextIs (TextAt self.new (content (F.store files.old) id) ((F.store files.new).place id))
            (text_kind self.old id) (content (F.store files.old) id) cells result }
        ensures reads { F.tells → (cells : List ℤ) → (bound : ℕ)
            → TextAt self.old (content (F.store files.old) id) ((F.store files.old).place id) cells
            → length cells < bound
            → ReadsOn (F.given files.old) (F.store files.old) (F.store files.new) id self.old.feed.ended
            self.new.feed.ended (IsErrOf result CellFault.Failed)
            (IsWanted (text_kind self.old id) (content (F.store files.old) id) bound) }
        ensures cause { ReadCause None (F.faults files.old) (F.faults files.new) result }
    {
        while self.has_bytes(files, id)? {
            match self.scan_on() {
                Found::Cell(cell) => return Ok(Some(cell)),
                Found::Fault(fault) => return Err(fault),
                Found::Nothing => {}
            }
        }
        Ok(None)
    }

    // The next cell. There are cells still to come.
    fn next_cell<F: Files>(&mut self, files: &mut F, id: u32) -> Result<i128, CellFault>
        requires given { id < F.given files.old }
        requires opened { F.tells → (F.store files.old).opened id ≡ true }
        requires left { self.old.scan.number < self.old.scan.cells }
        ensures given { F.given files.new ≡ F.given files.old }
        ensures still { F.tells → (F.store files.new).opened id ≡ true }
        ensures kind { KeepsKind self.old.scan self.new.scan }
        ensures next { StepsOne self.old.scan.number self.new.scan.number result }
        ensures range { IfOk result (λ v. InRange self.old.scan.ty v) }
        ensures at { F.tells → (cells : List ℤ)
            → TextAt self.old (content (F.store files.old) id) ((F.store files.old).place id) cells
            → OneIs (TextAt self.new (content (F.store files.old) id) ((F.store files.new).place id))
            (text_kind self.old id) (content (F.store files.old) id) cells result }
        ensures reads { F.tells → (cells : List ℤ) → (bound : ℕ)
            → TextAt self.old (content (F.store files.old) id) ((F.store files.old).place id) cells
            → length cells < bound
            → ReadsOn (F.given files.old) (F.store files.old) (F.store files.new) id self.old.feed.ended
            self.new.feed.ended (IsErrOf result CellFault.Failed)
            (IsWanted (text_kind self.old id) (content (F.store files.old) id) bound) }
        ensures cause { ReadCause None (F.faults files.old) (F.faults files.new) result }
    {
        match self.next_ended(files, id)? {
            Some(cell) => Ok(cell),
            None => self.scan.close(),
        }
    }

    // The next cells, of which as many are still to come.
    pub(crate) fn next_block<F: Files>(
        &mut self,
        files: &mut F,
        id: u32,
        out: &mut [i128],
    ) -> Result<(), CellFault>
        requires given { id < F.given files.old }
        requires opened { F.tells → (F.store files.old).opened id ≡ true }
        requires left { self.old.scan.number + length out.old ≤ self.old.scan.cells }
        ensures given { F.given files.new ≡ F.given files.old }
        ensures kind { KeepsKind self.old.scan self.new.scan }
        ensures next { OnOk result (self.new.scan.number ≡ self.old.scan.number + length out.old) }
        ensures range { OnOk result (All (λ v. InRange self.old.scan.ty v) out.new) }
        ensures at { F.tells → (cells : List ℤ)
            → TextAt self.old (content (F.store files.old) id) ((F.store files.old).place id) cells
            → SomeAre (TextAt self.new (content (F.store files.old) id) ((F.store files.new).place id))
            (text_kind self.old id) (content (F.store files.old) id) cells out.new result }
        ensures reads { F.tells → (cells : List ℤ)
            → TextAt self.old (content (F.store files.old) id) ((F.store files.old).place id) cells
            → ReadsOn (F.given files.old) (F.store files.old) (F.store files.new) id self.old.feed.ended
            self.new.feed.ended (IsErrOf result CellFault.Failed)
            (IsWanted (text_kind self.old id) (content (F.store files.old) id) (length cells + length out.old)) }
        ensures cause { ReadCause None (F.faults files.old) (F.faults files.new) result }
    {
        for place in out.iter_mut() {
            *place = self.next_cell(files, id)?;
        }
        Ok(())
    }

    // Reads on to the end, behind the last cell.
    pub(crate) fn end<F: Files>(&mut self, files: &mut F, id: u32) -> Result<(), CellFault>
        requires given { id < F.given files.old }
        requires opened { F.tells → (F.store files.old).opened id ≡ true }
        requires all { self.old.scan.number ≡ self.old.scan.cells }
        ensures given { F.given files.new ≡ F.given files.old }
        ensures kind { KeepsKind self.old.scan self.new.scan }
        ensures number { self.new.scan.number ≡ self.old.scan.number }
        ensures end { OnOk result (self.new.feed.ended ≡ true) }
        ensures at { F.tells → (cells : List ℤ)
            → TextAt self.old (content (F.store files.old) id) ((F.store files.old).place id) cells
            → EndOf (TextAt self.new (content (F.store files.old) id) ((F.store files.new).place id))
            (text_kind self.old id) (content (F.store files.old) id) cells result }
        ensures reads { F.tells → (cells : List ℤ)
            → TextAt self.old (content (F.store files.old) id) ((F.store files.old).place id) cells
            → ReadsOn (F.given files.old) (F.store files.old) (F.store files.new) id self.old.feed.ended
            self.new.feed.ended (IsErrOf result CellFault.Failed)
            (IsWanted (text_kind self.old id) (content (F.store files.old) id) (length cells + 1)) }
        ensures cause { ReadCause None (F.faults files.old) (F.faults files.new) result }
    {
        match self.next_ended(files, id)? {
            None => Ok(()),
            Some(_) => unreachable!(),
        }
    }
}
