//! Cells that a source module reads and a sink module writes, firing by firing to the last.

ghost use Rattle.std.specs.Prelude.{◌≡◌, ◌+◌, ◌*◌, ◌<◌, ◌≤◌, ◌^◌, None, true, false};
ghost use Rattle.soda_io.specs.Mem.{mem_given, mem_store};
ghost use Rattle.soda_io.specs.Store.{content};
ghost use Rattle.bursts.specs.Readers.{StandsAt, given_by};
ghost use Rattle.file_modules.specs.Modules.{read_before, sink, source};

use super::rows::{Layout, bytes_written, is_burst};
use array_bytes::Form;
use bursts::{CellReader, CellWriter};
use file_modules::{SinkModule, SourceModule};
use int_types::Ty;
use soda_io::{Files, MemFiles};
use soda_words::MOST_CELLS;
use std::alloc::{AllocError, Global};
use std::process::Abort;
use std::test::Fail;

// Does each firing from this one on, collects what the lanes send, and tells whether all calls succeeded.
fn run_from(
    input: &mut MemFiles,
    output: &mut MemFiles,
    from: &mut SourceModule,
    to: &mut SinkModule,
    sent: &mut Vec<i128>,
    firing: u64,
    firings: u64,
) -> Result<bool, AllocError>
    requires few { firings < 2 ^ 40 }
    requires order { firing ≤ firings }
    requires all { read_before (source from.old) firings ≡ (source from.old).kind.cells }
    requires lanes { (source from.old).unroll ≡ (sink to.old).unroll }
    requires given { (source from.old).kind.id < mem_given input.old }
    requires opened { (mem_store input.old).opened (source from.old).kind.id ≡ true }
    requires stands { StandsAt from.old.reader (content (mem_store input.old) (source from.old).kind.id)
        ((mem_store input.old).place (source from.old).kind.id) }
    requires fine { from.old.reader.fault ≡ None }
    requires count { given_by from.old.reader ≡ read_before (source from.old) firing }
    requires made { (sink to.old).output.id < mem_given output.old }
    requires created { (mem_store output.old).opened (sink to.old).output.id ≡ false }
{
    if firing == firings {
        let ended = from.end(input).is_ok();
        return Ok(to.finish(output).is_ok() && ended);
    }
    let Ok(()) = from.fire(input, firing) else {
        return Ok(false);
    };
    sent.extend_from_slice(from.lanes())?;
    let Ok(()) = to.fire(output, firing, from.lanes()) else {
        return Ok(false);
    };
    run_from(input, output, from, to, sent, firing + 1, firings)
}

// Reads the file of one id by a source and writes that of another by a sink, firing by firing.
fn run_modules(
    alloc: Global,
    input: &mut MemFiles,
    id: u32,
    output: &mut MemFiles,
    out: u32,
    layout: &Layout,
    unroll: u32,
    delay: u64,
    sent: &mut Vec<i128>,
) -> Result<bool, AllocError>
    requires some { 0 < unroll }
    requires most { unroll ≤ 64 }
    requires given { id < mem_given input.old }
    requires opened { (mem_store input.old).opened id ≡ true }
    requires unread { (mem_store input.old).place id ≡ 0 }
    requires made { out < mem_given output.old }
    requires created { (mem_store output.old).opened out ≡ false }
{
    let (form, ty, burst, cells) = (layout.form, layout.ty, layout.burst, layout.cells);
    if !is_burst(ty, burst) || cells > MOST_CELLS || layout.run == 0 || delay > MOST_CELLS {
        return Err(AllocError);
    }
    let lanes = u64::from(unroll);
    let firings = (cells + delay + (lanes - 1)) / lanes;
    if firings > 2 * MOST_CELLS {
        return Err(AllocError);
    }
    let writer = CellWriter::new(alloc, form, ty, burst, layout.run, out)?;
    let mut to = SinkModule::new(alloc, writer, ty, cells, unroll, delay)?;
    let reader = CellReader::new(alloc, form, ty, burst, cells, id)?;
    let mut from = SourceModule::new(alloc, reader, cells, unroll, delay)?;
    let done = run_from(input, output, &mut from, &mut to, sent, 0, firings);
    drop(from);
    drop(to);
    done
}

// The cells of an array of so many.
fn some_cells(alloc: Global, count: u64) -> Result<Vec<i128>, AllocError> {
    let mut cells = Vec::new(alloc);
    for number in 0..count {
        cells.push(100 - 37 * (number % 8) as i128)?;
    }
    Ok(cells)
}

// Copies an array by a source and a sink, and expects that the lanes sent its cells, behind as many zeros as the delay
// has and before as many as fill the last firing, and that its bytes were written again.
fn copy_array(
    rt: &impl Abort,
    alloc: Global,
    layout: &Layout,
    unroll: u32,
    delay: u64,
) -> Result<(), AllocError>
    requires some { 0 < unroll }
    requires most { unroll ≤ 64 }
{
    let cells = some_cells(alloc, layout.cells)?;
    let bytes = bytes_written(rt, alloc, &cells, layout)?;
    let mut input = MemFiles::new(alloc, &[])?;
    input.add("a", &bytes)?;
    let mut output = MemFiles::new(alloc, &[])?;
    let mut sent = Vec::new(alloc);
    match input.open("a") {
        Ok(id) => match output.create("a") {
            Ok(out) => {
                let done = run_modules(
                    alloc,
                    &mut input,
                    id,
                    &mut output,
                    out,
                    layout,
                    unroll,
                    delay,
                    &mut sent,
                )?;
                assert!(rt; done, "not read to its end, or not written");
            }
            Err(_) => assert!(rt; false, "not created"),
        },
        Err(_) => assert!(rt; false, "not opened"),
    }
    let mut wanted = vec![in alloc; 0; delay as usize]?;
    wanted.extend_from_slice(&cells)?;
    assert!(rt; wanted.len() <= sent.len() && sent.len() < wanted.len() + unroll as usize);
    wanted.resize(sent.len(), 0)?;
    assert_eq!(rt; sent, wanted);
    assert_eq!(rt; output.bytes_of("a"), Some(bytes.as_slice()));
    drop(input);
    drop(output);
    Ok(())
}

// Arrays of no cell, of one and of more, at several unroll factors and delays.
fn copy_arrays(rt: &impl Abort, alloc: Global, form: Form, ty: Ty) -> Result<(), AllocError> {
    for cells in [0, 1, 7] {
        let layout = Layout {
            form,
            ty,
            burst: 32,
            cells,
            run: 3,
        };
        for delay in [0, 1, 5] {
            for unroll in 1..4 {
                copy_array(rt, alloc, &layout, unroll, delay)?;
            }
        }
    }
    Ok(())
}

#[test]
fn cells_by_modules(rt: HostRuntime) -> Result<(), Fail> {
    match Ty::new(true, 12) {
        Some(ty) => {
            copy_arrays(&rt, rt.alloc(), Form::Text, ty)?;
            copy_arrays(&rt, rt.alloc(), Form::Raw, ty)?;
        }
        None => assert!(rt; false, "no type"),
    }
    Ok(())
}
