// Reading raw cells, a burst word at a time.
ghost use Rattle.std.specs.Prelude.{◌≡◌, ℕ, ◌+◌, ◌*◌, ◌-◌, ◌%◌, ◌≤◌, ◌<◌, ◌^◌, true, false, min, length, List, ℤ, ◌++◌, [], All, Contains, None, vec_len, IfOk, OnOk, IsErrOf};
ghost use Rattle.soda_words.specs.IntType.{cell_sizes};
ghost use Rattle.int_types.specs.Ranges.{InRange};
ghost use Rattle.soda_io.specs.Store.{content};
ghost use Rattle.array_bytes.specs.Sizes.{cell_size};

use crate::feed::Feed;
use array_bytes::{CellFault, raw_cell, raw_size};
use int_types::Ty;
use soda_io::{Files, NoMemory};
use std::alloc::Global;

#[derive(Drop)]
pub(crate) struct RawReader {
    pub(crate) feed: Feed,
    pub(crate) ty: Ty,
    // The bytes of a cell.
    pub(crate) size: usize,
    // The cells of a word.
    pub(crate) word: usize,
    // The cells of the file.
    pub(crate) cells: usize,
    // How many of them were given.
    pub(crate) number: usize,
    // The first cell of the word that is being read.
    pub(crate) first: usize,
    ghost bytes: { size ≡ cell_size ty },
    ghost small: { size ≤ 8 },
    ghost some: { 0 < size },
    ghost some_cells: { 0 < word },
    ghost few: { cells ≤ 2 ^ 24 },
    ghost begun: { first ≤ number },
    ghost within: { number ≤ first + word },
    ghost left: { number ≤ cells },
    ghost aligned: { first % word ≡ 0 },
    ghost buffer: { vec_len feed.buffer ≡ word * size },
    ghost place: { feed.start ≤ (number - first) * size },
}

impl RawReader {
    ghost use Rattle.array_bytes.specs.Sizes.{word_cells};
    ghost use Rattle.bursts.specs.Blocks.{IsWanted, ReadCause, ReadsOn};
    ghost use Rattle.bursts.specs.Machine.Calls.{EndOf, OneIs, SomeAre, StepsOne};
    ghost use Rattle.bursts.specs.Machine.Sources.{HasCell, KeepsRaw, RawAt, raw_kind, rest_of};

    // A reader of so many cells, at most 2^24, with burst words of so many bits.
    pub(crate) fn new(alloc: Global, ty: Ty, burst: u32, cells: u64) -> Result<RawReader, NoMemory>
        requires least { 8 ≤ burst }
        requires whole { burst % (8 * cell_size ty) ≡ 0 }
        requires few { cells ≤ 2 ^ 24 }
        ensures ty { IfOk result (λ r. r.ty ≡ ty) }
        ensures cells { IfOk result (λ r. r.cells ≡ cells) }
        ensures word { IfOk result (λ r. r.word ≡ word_cells ty burst) }
        ensures number { IfOk result (λ r. r.number ≡ 0) }
        ensures ended { IfOk result (λ r. r.feed.ended ≡ false) }
        ensures at { IfOk result (λ r. (bytes : List ℕ) → RawAt r bytes 0 []) }
    {
        let size = raw_size(ty);
        let word = burst as usize / (8 * size);
        let feed = Feed::new(alloc, word * size)?;
        Ok(RawReader {
            feed,
            ty,
            size,
            word,
            cells: cells as usize,
            number: 0,
            first: 0,
        })
    }

    // How many bytes the cells of the word have that are still to come.
    fn rest(&self) -> usize
        ensures value { result ≡ rest_of self.now }
        ensures room { self.now.feed.start + result ≤ vec_len self.now.feed.buffer }
    {
        ((self.first + self.word).min(self.cells) - self.number) * self.size
    }

    // Begins the next word where all cells of the one before it were given. There are cells still to come.
    fn begin_word(&mut self)
        requires left { self.old.number < self.old.cells }
        ensures kept { KeepsRaw self.old self.new }
        ensures number { self.new.number ≡ self.old.number }
        ensures some { self.new.number < self.new.first + self.new.word }
        ensures ended { self.new.feed.ended ≡ self.old.feed.ended }
        ensures at { (bytes : List ℕ) → (place : ℕ) → (cells : List ℤ) → RawAt self.old bytes place cells
            → RawAt self.new bytes place cells }
    {
        if self.number == self.first + self.word {
            self.feed.restart();
            self.first = self.number;
        }
    }

    // Whether the next cell of the word was read, after as many reads as it takes; not where the file ends before it.
    fn has_cell<F: Files>(&mut self, files: &mut F, id: u32) -> Result<bool, CellFault>
        requires given { id < F.given files.old }
        requires opened { F.tells → (F.store files.old).opened id ≡ true }
        requires left { self.old.number < self.old.cells }
        requires some { self.old.number < self.old.first + self.old.word }
        ensures given { F.given files.new ≡ F.given files.old }
        ensures still { F.tells → (F.store files.new).opened id ≡ true }
        ensures kept { KeepsRaw self.old self.new }
        ensures number { self.new.number ≡ self.old.number }
        ensures first { self.new.first ≡ self.old.first }
        ensures has { HasCell self.new result }
        ensures at { F.tells → (cells : List ℤ)
            → RawAt self.old (content (F.store files.old) id) ((F.store files.old).place id) cells
            → RawAt self.new (content (F.store files.old) id) ((F.store files.new).place id) cells }
        ensures reads { F.tells → (cells : List ℤ)
            → RawAt self.old (content (F.store files.old) id) ((F.store files.old).place id) cells
            → ReadsOn (F.given files.old) (F.store files.old) (F.store files.new) id self.old.feed.ended
            self.new.feed.ended (IsErrOf result CellFault.Failed)
            (IsWanted (raw_kind self.old id) (content (F.store files.old) id) (length cells + 1)) }
        ensures cause { ReadCause None (F.faults files.old) (F.faults files.new) result }
    {
        while self.feed.count() < self.size {
            let most = self.rest() - self.feed.count();
            if !self.feed.fill(files, id, most)? {
                return Ok(false);
            }
        }
        Ok(true)
    }

    // The next cell. There are cells still to come.
    fn next_cell<F: Files>(&mut self, files: &mut F, id: u32) -> Result<i128, CellFault>
        requires given { id < F.given files.old }
        requires opened { F.tells → (F.store files.old).opened id ≡ true }
        requires left { self.old.number < self.old.cells }
        ensures given { F.given files.new ≡ F.given files.old }
        ensures still { F.tells → (F.store files.new).opened id ≡ true }
        ensures kept { KeepsRaw self.old self.new }
        ensures next { StepsOne self.old.number self.new.number result }
        ensures range { IfOk result (λ v. InRange self.old.ty v) }
        ensures at { F.tells → (cells : List ℤ)
            → RawAt self.old (content (F.store files.old) id) ((F.store files.old).place id) cells
            → OneIs (RawAt self.new (content (F.store files.old) id) ((F.store files.new).place id))
            (raw_kind self.old id) (content (F.store files.old) id) cells result }
        ensures reads { F.tells → (cells : List ℤ)
            → RawAt self.old (content (F.store files.old) id) ((F.store files.old).place id) cells
            → ReadsOn (F.given files.old) (F.store files.old) (F.store files.new) id self.old.feed.ended
            self.new.feed.ended (IsErrOf result CellFault.Failed)
            (IsWanted (raw_kind self.old id) (content (F.store files.old) id) (length cells + 1)) }
        ensures cause { ReadCause None (F.faults files.old) (F.faults files.new) result }
    {
        self.begin_word();
        if !self.has_cell(files, id)? {
            return Err(CellFault::TooFew(self.number as u64));
        }
        let cell = raw_cell(self.ty, self.number as u64, self.feed.unread())?;
        self.feed.skip(self.size);
        self.number += 1;
        Ok(cell)
    }

    // The next cells, of which as many are still to come.
    pub(crate) fn next_block<F: Files>(
        &mut self,
        files: &mut F,
        id: u32,
        out: &mut [i128],
    ) -> Result<(), CellFault>
        requires given { id < F.given files.old }
        requires opened { F.tells → (F.store files.old).opened id ≡ true }
        requires left { self.old.number + length out.old ≤ self.old.cells }
        ensures given { F.given files.new ≡ F.given files.old }
        ensures kept { KeepsRaw self.old self.new }
        ensures next { OnOk result (self.new.number ≡ self.old.number + length out.old) }
        ensures range { OnOk result (All (λ v. InRange self.old.ty v) out.new) }
        ensures at { F.tells → (cells : List ℤ)
            → RawAt self.old (content (F.store files.old) id) ((F.store files.old).place id) cells
            → SomeAre (RawAt self.new (content (F.store files.old) id) ((F.store files.new).place id))
            (raw_kind self.old id) (content (F.store files.old) id) cells out.new result }
        ensures reads { F.tells → (cells : List ℤ)
            → RawAt self.old (content (F.store files.old) id) ((F.store files.old).place id) cells
            → ReadsOn (F.given files.old) (F.store files.old) (F.store files.new) id self.old.feed.ended
            self.new.feed.ended (IsErrOf result CellFault.Failed)
            (IsWanted (raw_kind self.old id) (content (F.store files.old) id) (length cells + length out.old)) }
        ensures cause { ReadCause None (F.faults files.old) (F.faults files.new) result }
    {
        for place in out.iter_mut() {
            *place = self.next_cell(files, id)?;
        }
        Ok(())
    }

    // Asks for one byte behind the last cell.
    pub(crate) fn end<F: Files>(&mut self, files: &mut F, id: u32) -> Result<(), CellFault>
        requires given { id < F.given files.old }
        requires opened { F.tells → (F.store files.old).opened id ≡ true }
        requires all { self.old.number ≡ self.old.cells }
        ensures given { F.given files.new ≡ F.given files.old }
        ensures kept { KeepsRaw self.old self.new }
        ensures number { self.new.number ≡ self.old.number }
        ensures end { OnOk result (self.new.feed.ended ≡ true) }
        ensures at { F.tells → (cells : List ℤ)
            → RawAt self.old (content (F.store files.old) id) ((F.store files.old).place id) cells
            → EndOf (RawAt self.new (content (F.store files.old) id) ((F.store files.new).place id))
            (raw_kind self.old id) (content (F.store files.old) id) cells result }
        ensures reads { F.tells → (cells : List ℤ)
            → RawAt self.old (content (F.store files.old) id) ((F.store files.old).place id) cells
            → ReadsOn (F.given files.old) (F.store files.old) (F.store files.new) id self.old.feed.ended
            self.new.feed.ended (IsErrOf result CellFault.Failed) (λ place asked. asked ≤ 1) }
        ensures cause { ReadCause None (F.faults files.old) (F.faults files.new) result }
    {
        self.feed.restart();
        if self.feed.fill(files, id, 1)? {
            Err(CellFault::TooMany)
        } else {
            Ok(())
        }
    }
}
