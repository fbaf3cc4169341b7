//! Evaluates formulas over rows of cells, and over one cell at a time, and tells how long that takes.
#![tactic(auto)]

mod formulas;
mod programs;
mod turns;

use anyhow::{Result, bail};
use formula_code::{CellRead, Code, NarrowCode, NarrowScratch, NoMemory, Place};
use formulas::{BLUR, JACOBI, Piece, SOBEL, formula};
use programs::code_of;
use soda_words::Ty;
use sqlite_items::Items;
use std::alloc::Global;
use std::env;
use std::time::Instant;
use turns::{narrow_turn, single_turn, wide_single_turn, wide_turn};

const WIDTH: usize = 2000;

const ROWS: usize = 2000;

// How many rows are done over wide cells.
const WIDE_ROWS: usize = 200;

// How many lanes are done at a time.
const LANES: usize = 500;

const TURNS: usize = 5;

const SINGLES: u32 = 200000;

fn place_of(offset: &[i64]) -> Place {
    let start = match offset {
        [dx, dy] => (WIDTH as i64 + 1)
            .wrapping_add(*dx)
            .wrapping_add(dy.wrapping_mul(WIDTH as i64)),
        _ => 0,
    };
    Place {
        array: 0,
        start: start.unsigned_abs() as usize,
    }
}

// Where the reads of the first cell lie that has all of them.
fn places_of(alloc: Global, reads: &[CellRead]) -> Result<Vec<Place>, NoMemory> {
    let mut places = Vec::new(alloc);
    for read in reads {
        places.push(place_of(read.offset.as_slice()))?;
    }
    Ok(places)
}

// A cell of the input.
fn raw(i: usize) -> u16 {
    ((i as u64).wrapping_mul(2654435761) >> 7 & 0xffff) as u16
}

fn narrow_cells(alloc: Global, count: usize) -> Result<Vec<Items<u16>>, NoMemory> {
    let mut cells = Vec::new(alloc);
    for i in 0..count {
        cells.push(raw(i))?;
    }
    let mut arrays = Vec::new(alloc);
    arrays.push(Items::from_vec(cells))?;
    Ok(arrays)
}

fn wide_cells(alloc: Global, count: usize) -> Result<Vec<Items<i128>>, NoMemory> {
    let mut cells = Vec::new(alloc);
    for i in 0..count {
        cells.push(raw(i) as i128)?;
    }
    let mut arrays = Vec::new(alloc);
    arrays.push(Items::from_vec(cells))?;
    Ok(arrays)
}

fn sum_of(words: &[i32]) -> u64 {
    let mut sum = 0u64;
    for word in words {
        sum = sum.wrapping_add(u64::from(word.cast_unsigned()));
    }
    sum
}

// Nanoseconds since then, and 0 where nothing is timed.
fn since(rt: &HostRuntime, timed: bool, start: Instant) -> Result<u64> {
    let time = u64::try_from(start.elapsed(rt)?.as_nanos()).unwrap_or(u64::MAX);
    Ok(if timed { time } else { 0 })
}

fn narrow_times(
    rt: &HostRuntime,
    timed: bool,
    name: &str,
    reads: &[CellRead],
    narrow: &NarrowCode,
) -> Result<()> {
    let alloc = rt.alloc();
    let arrays = narrow_cells(alloc, WIDTH * ROWS)?;
    let mut scratch = NarrowScratch::new(alloc, narrow.groups.len(), LANES)?;
    let mut out = vec![in alloc; 0i32; WIDTH * (ROWS - 3)]?;
    let mut best = u64::MAX;
    let mut all = true;
    for _ in 0..TURNS {
        let mut places = places_of(alloc, reads)?;
        let start = Instant::now(rt)?;
        all &= narrow_turn(narrow, &arrays, &mut places, WIDTH, &mut scratch, &mut out);
        best = best.min(since(rt, timed, start)?);
    }
    let rate = best / (WIDTH * (ROWS - 3) / 1000) as u64;
    let sum = sum_of(&out);
    println!(rt; "{name}: {rate} ns for 1000 cells, sum {sum}, {all}")?;
    Ok(())
}

fn wide_times(rt: &HostRuntime, timed: bool, name: &str, code: &Code) -> Result<()> {
    let alloc = rt.alloc();
    let arrays = wide_cells(alloc, WIDTH * (WIDE_ROWS + 3))?;
    let mut out = vec![in alloc; 0i128; WIDTH * WIDE_ROWS]?;
    let mut best = u64::MAX;
    let mut all = true;
    for _ in 0..TURNS {
        let mut places = places_of(alloc, code.wide.reads.as_slice())?;
        let start = Instant::now(rt)?;
        all &= wide_turn(alloc, code, &arrays, &mut places, WIDTH, &mut out)?;
        best = best.min(since(rt, timed, start)?);
    }
    let rate = best / (WIDTH * WIDE_ROWS / 1000) as u64;
    println!(rt; "{name} over wide cells: {rate} ns for 1000 cells, {all}")?;
    Ok(())
}

fn single_times(rt: &HostRuntime, timed: bool, name: &str, code: &Code) -> Result<()> {
    let alloc = rt.alloc();
    let values = vec![in alloc; 1000i128; code.wide.reads.len()]?;
    let start = Instant::now(rt)?;
    let sum = single_turn(alloc, code, &values, SINGLES)?;
    let rate = since(rt, timed, start)? / u64::from(SINGLES / 1000);
    let count = code.wide.instrs.len();
    println!(rt;
        "{name}, one at a time: {rate} ns for 1000 cells of {count} instructions, sum {sum}"
    )?;
    let start = Instant::now(rt)?;
    let sum = wide_single_turn(alloc, &code.wide, &values, SINGLES)?;
    let rate = since(rt, timed, start)? / u64::from(SINGLES / 1000);
    println!(rt; "{name}, one at a time on wide words: {rate} ns for 1000 cells, sum {sum}")?;
    Ok(())
}

fn code_for(alloc: Global, pieces: &[Piece]) -> Result<Code> {
    let Some(ty) = Ty::new(false, 16) else {
        bail!("no type");
    };
    match formula(alloc, pieces)? {
        Some(expr) => match code_of(alloc, WIDTH as u64, ty, expr)? {
            Some(code) => Ok(code),
            None => bail!("no code"),
        },
        None => bail!("no formula"),
    }
}

fn times(rt: &HostRuntime, timed: bool, name: &str, pieces: &[Piece]) -> Result<()> {
    let code = code_for(rt.alloc(), pieces)?;
    match &code.narrow {
        Some(narrow) => narrow_times(rt, timed, name, code.wide.reads.as_slice(), narrow)?,
        None => println!(rt; "{name} isn't narrow")?,
    }
    wide_times(rt, timed, name, &code)?;
    single_times(rt, timed, name, &code)
}

// Whether there is a word: then what is done is timed.
fn is_timed(rt: &HostRuntime) -> Result<bool> {
    let alloc = rt.alloc();
    let words: Vec<String> = env::args(&(rt, alloc))?.collect(alloc)?;
    Ok(words.len() > 1)
}

fn main(rt: HostRuntime) -> Result<()> {
    let timed = is_timed(&rt)?;
    times(&rt, timed, "blur", &BLUR)?;
    times(&rt, timed, "jacobi", &JACOBI)?;
    times(&rt, timed, "sobel", &SOBEL)
}
