//! A file read in blocks and to its end, and then once more.

ghost use Rattle.std.specs.Prelude.{◌≡◌, ◌+◌, ◌<◌, length, None, Some, true};
ghost use Rattle.soda_io.specs.Mem.{mem_given, mem_store};
ghost use Rattle.soda_io.specs.Store.{content};
ghost use Rattle.bursts.specs.Blocks.{err_of};
ghost use Rattle.bursts.specs.Readers.{StandsAt, given_by, kind};

use super::rows::{Layout, is_burst};
use array_bytes::CellFault;
use bursts::CellReader;
use soda_io::MemFiles;
use soda_words::MOST_CELLS;
use std::alloc::{AllocError, Global};
use std::process::Abort;

// Reads on in blocks of so many cells, the last of which may be smaller, and then to the end.
fn read_blocks(
    files: &mut MemFiles,
    reader: &mut CellReader,
    out: &mut [i128],
    size: usize,
) -> Result<(), CellFault>
    requires some { 0 < size }
    requires given { (kind reader.old).id < mem_given files.old }
    requires opened { (mem_store files.old).opened (kind reader.old).id ≡ true }
    requires stands { StandsAt reader.old (content (mem_store files.old) (kind reader.old).id)
        ((mem_store files.old).place (kind reader.old).id) }
    requires fine { reader.old.fault ≡ None }
    requires left { given_by reader.old + length out.old ≡ (kind reader.old).cells }

    ensures kind { kind reader.new ≡ kind reader.old }
    ensures given { mem_given files.new ≡ mem_given files.old }
    ensures opened { (mem_store files.new).opened (kind reader.old).id ≡ true }
    ensures stands { StandsAt reader.new (content (mem_store files.new) (kind reader.old).id)
        ((mem_store files.new).place (kind reader.old).id) }
    ensures fault { reader.new.fault ≡ err_of result }
{
    let count = size.min(out.len());
    if count == 0 {
        return reader.end(files);
    }
    let (first, rest) = out.split_at_mut(count);
    match reader.next_block(files, first) {
        Ok(()) => read_blocks(files, reader, rest, size),
        Err(fault) => Err(fault),
    }
}

// Whether a reader that answered this fault answers it again, to both calls, and asks for nothing.
fn answers_again(files: &mut MemFiles, reader: &mut CellReader, fault: CellFault) -> bool
    requires given { (kind reader.old).id < mem_given files.old }
    requires opened { (mem_store files.old).opened (kind reader.old).id ≡ true }
    requires stands { StandsAt reader.old (content (mem_store files.old) (kind reader.old).id)
        ((mem_store files.old).place (kind reader.old).id) }
    requires fault { reader.old.fault ≡ Some fault }
{
    let calls = files.journal().len();
    let mut cell = [0; 1];
    let next = reader.next_block(files, &mut cell);
    let end = reader.end(files);
    next == Err(fault) && end == Err(fault) && files.journal().len() == calls
}

/// Reads the file of an id in blocks of so many cells, and expects these cells or this fault.
pub(crate) fn read_by(
    rt: &impl Abort,
    alloc: Global,
    files: &mut MemFiles,
    id: u32,
    layout: &Layout,
    size: usize,
    wanted: Result<&[i128], CellFault>,
) -> Result<(), AllocError>
    requires some { 0 < size }
    requires given { id < mem_given files.old }
    requires opened { (mem_store files.old).opened id ≡ true }
    requires unread { (mem_store files.old).place id ≡ 0 }
{
    if !is_burst(layout.ty, layout.burst) || layout.cells > MOST_CELLS {
        return Err(AllocError);
    }
    let mut out = vec![in alloc; 0; layout.cells as usize]?;
    let mut reader = CellReader::new(
        alloc,
        layout.form,
        layout.ty,
        layout.burst,
        layout.cells,
        id,
    )?;
    match read_blocks(files, &mut reader, &mut out, size) {
        Ok(()) => assert_eq!(rt; Ok(out.as_slice()), wanted),
        Err(fault) => {
            assert_eq!(rt; Err(fault), wanted);
            assert!(rt; answers_again(files, &mut reader, fault));
        }
    }
    drop(reader);
    drop(out);
    Ok(())
}
