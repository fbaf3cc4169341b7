ghost use Rattle.std.specs.Prelude.{◌≡◌, ℕ, ◌+◌, ◌≤◌, ◌<◌, true, length, List, ℤ, ◌++◌, All, None, OnOk, IsErrOf};
ghost use Rattle.int_types.specs.Ranges.{InRange};
ghost use Rattle.soda_io.specs.Store.{content};

use crate::CellFault;
use crate::raw_reader::RawReader;
use crate::text_reader::TextReader;
use soda_io::Files;

// What a reader reads, by its form.
#[derive(Drop)]
pub(crate) enum Source {
    Text(TextReader),
    Raw(RawReader),
}

impl Source {
    ghost use Rattle.array_bytes.specs.ReadNumber.{most_asked_at_end};
    ghost use Rattle.bursts.specs.Blocks.{BlockIs, EndIs, IsWanted, ReadCause, ReadsOn};
    ghost use Rattle.bursts.specs.Machine.Sources.{SourceAt};
    ghost use Rattle.bursts.specs.Readers.{given_of, has_ended, kind_of};

    // The next cells, of which as many are still to come.
    pub(crate) fn next_block<F: Files>(
        &mut self,
        files: &mut F,
        id: u32,
        out: &mut [i128],
    ) -> Result<(), CellFault>
        requires given { id < F.given files.old }
        requires opened { F.tells → (F.store files.old).opened id ≡ true }
        requires left { given_of self.old + length out.old ≤ (kind_of id self.old).cells }
        ensures given { F.given files.new ≡ F.given files.old }
        ensures kind { kind_of id self.new ≡ kind_of id self.old }
        ensures next { OnOk result (given_of self.new ≡ given_of self.old + length out.old) }
        ensures range { OnOk result (All (λ v. InRange (kind_of id self.old).ty v) out.new) }
        ensures block { F.tells → (cells : List ℤ)
            → SourceAt self.old (content (F.store files.old) id) ((F.store files.old).place id) cells
            → BlockIs (kind_of id self.old) (content (F.store files.old) id) (given_of self.old) out.new result }
        ensures at { F.tells → (cells : List ℤ)
            → SourceAt self.old (content (F.store files.old) id) ((F.store files.old).place id) cells
            → OnOk result (SourceAt self.new (content (F.store files.new) id) ((F.store files.new).place id)
            (cells ++ out.new)) }
        ensures reads { F.tells → (cells : List ℤ)
            → SourceAt self.old (content (F.store files.old) id) ((F.store files.old).place id) cells
            → ReadsOn (F.given files.old) (F.store files.old) (F.store files.new) id (has_ended self.old)
            (has_ended self.new) (IsErrOf result CellFault.Failed)
            (IsWanted (kind_of id self.old) (content (F.store files.old) id)
            (given_of self.old + length out.old)) }
        ensures cause { ReadCause None (F.faults files.old) (F.faults files.new) result }
    {
        match self {
            Source::Text(reader) => reader.next_block(files, id, out),
            Source::Raw(reader) => reader.next_block(files, id, out),
        }
    }

    // Reads on to the end, behind the last cell.
    pub(crate) fn end<F: Files>(&mut self, files: &mut F, id: u32) -> Result<(), CellFault>
        requires given { id < F.given files.old }
        requires opened { F.tells → (F.store files.old).opened id ≡ true }
        requires all { given_of self.old ≡ (kind_of id self.old).cells }
        ensures given { F.given files.new ≡ F.given files.old }
        ensures kind { kind_of id self.new ≡ kind_of id self.old }
        ensures number { given_of self.new ≡ given_of self.old }
        ensures done { OnOk result (has_ended self.new ≡ true) }
        ensures end { F.tells → (cells : List ℤ)
            → SourceAt self.old (content (F.store files.old) id) ((F.store files.old).place id) cells
            → EndIs (kind_of id self.old) (content (F.store files.old) id) result }
        ensures at { F.tells → (cells : List ℤ)
            → SourceAt self.old (content (F.store files.old) id) ((F.store files.old).place id) cells
            → OnOk result (SourceAt self.new (content (F.store files.new) id) ((F.store files.new).place id) cells) }
        ensures reads { F.tells → (cells : List ℤ)
            → SourceAt self.old (content (F.store files.old) id) ((F.store files.old).place id) cells
            → ReadsOn (F.given files.old) (F.store files.old) (F.store files.new) id (has_ended self.old)
            (has_ended self.new) (IsErrOf result CellFault.Failed)
            (λ place asked. asked ≤ most_asked_at_end (kind_of id self.old).form) }
        ensures cause { ReadCause None (F.faults files.old) (F.faults files.new) result }
    {
        match self {
            Source::Text(reader) => reader.end(files, id),
            Source::Raw(reader) => reader.end(files, id),
        }
    }
}
