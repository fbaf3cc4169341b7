//! Reads an array of int32 cells from one file, and writes it to another. The words are how many cells there are, the
//! form that they stand in, `text` or `raw`, and the file's name, then the form and the name of the file that is to be
//! written, if any. It prints the sum of the cells.
#![tactic(auto)]

ghost use Rattle.std.specs.Prelude.{◌≡◌, ◌<◌, ◌≤◌, ◌^◌, All, OnOk, length, vec_len};
ghost use Rattle.soda_words.specs.IntType.{int32};
ghost use Rattle.int_types.specs.Ranges.{InRange};
ghost use Rattle.bursts.specs.Readers.{given_by, kind};
ghost use Rattle.bursts.specs.Writers.{output};

use anyhow::{Result, bail};
use array_bytes::raw_size;
use bursts::{CellFault, CellReader, CellWriter, Form};
use int_types::int32;
use soda_io::{Files, IoErr, RealFiles};
use soda_words::MOST_CELLS;
use std::alloc::Global;
use std::env;
use std::rt::Runtime;

// The bits of a burst word, and the cells of a line.
const BURST: u32 = 512;

const LINE: u64 = 100;

// The most cells.
const MOST: usize = MOST_CELLS as usize;

fn form_of(word: &str) -> Result<Form> {
    match word {
        "text" => Ok(Form::Text),
        "raw" => Ok(Form::Raw),
        _ => bail!("a form is text or raw"),
    }
}

// Reads all cells, and on to the end.
fn read_all<R: Runtime>(
    files: &mut RealFiles<R>,
    reader: &mut CellReader,
    out: &mut [i128],
) -> Result<(), CellFault>
    requires given { (kind reader.old).id < vec_len files.old.files }
    requires none { given_by reader.old ≡ 0 }
    requires whole { length out.old ≡ (kind reader.old).cells }
    ensures range { OnOk result (All (λ v. InRange (kind reader.old).ty v) out.new) }
{
    reader.next_block(files, out)?;
    reader.end(files)
}

// Writes all cells.
fn write_all<R: Runtime>(
    files: &mut RealFiles<R>,
    writer: &mut CellWriter,
    cells: &[i128],
) -> Result<(), IoErr>
    requires given { (output writer.old).id < vec_len files.old.files }
    requires range { All (λ v. InRange (output writer.old).ty v) cells.now }
{
    writer.put(files, cells)?;
    writer.finish(files)
}

// Reads a file that has as many cells as there are places.
fn read_cells<R: Runtime>(
    alloc: Global,
    files: &mut RealFiles<R>,
    form: Form,
    name: &str,
    out: &mut [i128],
) -> Result<()>
    requires few { length out.old ≤ 2 ^ 24 }
    ensures range { OnOk result (All (λ v. InRange int32 v) out.new) }
{
    let ty = int32();
    if BURST as usize % (8 * raw_size(ty)) != 0 {
        bail!("a burst word has whole cells");
    }
    let id = files.open(name)?;
    let mut reader = CellReader::new(alloc, form, ty, BURST, out.len() as u64, id)?;
    let answer = read_all(files, &mut reader, out);
    drop(reader);
    answer?;
    Ok(())
}

// Writes these cells.
fn write_cells<R: Runtime>(
    alloc: Global,
    files: &mut RealFiles<R>,
    form: Form,
    name: &str,
    cells: &[i128],
) -> Result<()>
    requires range { All (λ v. InRange int32 v) cells.now }
{
    let ty = int32();
    if BURST as usize % (8 * raw_size(ty)) != 0 {
        bail!("a burst word has whole cells");
    }
    let id = files.create(name)?;
    let mut writer = CellWriter::new(alloc, form, ty, BURST, LINE, id)?;
    let answer = write_all(files, &mut writer, cells);
    drop(writer);
    answer?;
    Ok(())
}

fn sum_of(cells: &[i128]) -> i128 {
    let mut sum = 0i128;
    for cell in cells {
        sum = sum.wrapping_add(*cell);
    }
    sum
}

fn run<R: Runtime>(rt: &R, alloc: Global, words: &[String]) -> Result<i128> {
    let [_, count, form, name, copy @ ..] = words else {
        bail!("words: CELLS FORM FILE [FORM FILE]");
    };
    let count: usize = count.parse()?;
    if count > MOST {
        bail!("CELLS is at most {MOST}");
    }
    let mut cells = vec![in alloc; 0i128; count]?;
    let mut files = RealFiles::new(rt, alloc)?;
    read_cells(alloc, &mut files, form_of(form)?, name, &mut cells)?;
    if let [form, name] = copy {
        write_cells(alloc, &mut files, form_of(form)?, name, &cells)?;
    }
    let sum = sum_of(&cells);
    drop(files);
    drop(cells);
    Ok(sum)
}

fn main(rt: HostRuntime) -> Result<()> {
    let alloc = rt.alloc();
    let words: Vec<String> = env::args(&(&rt, alloc))?.collect(alloc)?;
    let sum = run(&rt, alloc, &words)?;
    println!(rt; "{sum}")?;
    Ok(())
}
