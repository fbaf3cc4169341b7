//! Cells put in blocks, and the rest of them written.

ghost use Rattle.std.specs.Prelude.{◌≡◌, ◌<◌, All, false, true};
ghost use Rattle.int_types.specs.Ranges.{InRange};
ghost use Rattle.soda_io.specs.Mem.{mem_given, mem_store};
ghost use Rattle.bursts.specs.Writers.{output};

use super::rows::{Layout, is_burst};
use bursts::CellWriter;
use int_types::{Ty, in_range};
use soda_io::{IoErr, MemFiles};
use std::alloc::{AllocError, Global};
use std::process::Abort;

// Whether each cell is in the type's range.
fn are_in_range(ty: Ty, cells: &[i128]) -> bool
    ensures { result ≡ true → All (λ v. InRange ty v) cells.now }
{
    match cells {
        [] => true,
        [cell, rest @ ..] => in_range(ty, *cell) && are_in_range(ty, rest),
    }
}

// Puts cells in blocks of so many, the last of which may be smaller, and writes the rest.
fn write_blocks(
    files: &mut MemFiles,
    writer: &mut CellWriter,
    ty: Ty,
    cells: &[i128],
    size: usize,
) -> Result<(), IoErr>
    requires some { 0 < size }
    requires ty { (output writer.old).ty ≡ ty }
    requires given { (output writer.old).id < mem_given files.old }
    requires created { (mem_store files.old).opened (output writer.old).id ≡ false }
{
    let count = size.min(cells.len());
    if count == 0 {
        return writer.finish(files);
    }
    let (first, rest) = cells.split_at(count);
    if !are_in_range(ty, first) {
        return Err(IoErr::Memory);
    }
    writer.put(files, first)?;
    write_blocks(files, writer, ty, rest, size)
}

/// Writes cells to the file of an id in blocks of so many, and expects this answer.
pub(crate) fn write_by(
    rt: &impl Abort,
    alloc: Global,
    files: &mut MemFiles,
    id: u32,
    layout: &Layout,
    cells: &[i128],
    size: usize,
    wanted: Result<(), IoErr>,
) -> Result<(), AllocError>
    requires some { 0 < size }
    requires given { id < mem_given files.old }
    requires created { (mem_store files.old).opened id ≡ false }
{
    if !is_burst(layout.ty, layout.burst) || layout.run == 0 {
        return Err(AllocError);
    }
    let mut writer = CellWriter::new(alloc, layout.form, layout.ty, layout.burst, layout.run, id)?;
    let answer = write_blocks(files, &mut writer, layout.ty, cells, size);
    assert_eq!(rt; answer, wanted);
    drop(writer);
    Ok(())
}
