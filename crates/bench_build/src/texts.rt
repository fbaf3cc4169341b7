use net_build::NoMemory;
use std::alloc::Global;

/// What a made program is like.
#[derive(Clone, Copy)]
pub enum Kind {
    /// So many iterations of one output of 64 lanes, which reads one cell of each of 15 lines.
    Lanes,
    /// So many locals of 4 lanes, each of which reads other cells of one input.
    Reads,
}

// How many cells a tensor of each kind reads.
const LINES: u32 = 15;

const CELLS: u32 = 32;

fn add(text: &mut Vec<u8>, more: &str) -> Result<(), NoMemory> {
    text.extend_from_slice(more.as_bytes())
}

// Adds reads of a tensor's cells, each so far from the one before.
fn add_reads(
    alloc: Global,
    text: &mut Vec<u8>,
    first: i32,
    step: i32,
    count: u32,
) -> Result<(), NoMemory> {
    let mut offset = first;
    for place in 0..count {
        if place > 0 {
            add(text, " + ")?;
        }
        add(text, format!(in alloc; "a({offset})")?.as_str())?;
        offset = offset.wrapping_add(step);
    }
    Ok(())
}

fn lanes_text(alloc: Global, iterations: u32) -> Result<Vec<u8>, NoMemory> {
    let mut text = Vec::new(alloc);
    add(
        &mut text,
        "kernel: lanes\nburst width: 8\nunroll factor: 64\n",
    )?;
    add(
        &mut text,
        format!(in alloc; "iterate: {iterations}\n")?.as_str(),
    )?;
    add(&mut text, "input uint8: a(*)\noutput uint8: o(0) = ")?;
    add_reads(alloc, &mut text, 0, 64, LINES)?;
    add(&mut text, "\n")?;
    Ok(text)
}

fn reads_text(alloc: Global, locals: u32) -> Result<Vec<u8>, NoMemory> {
    let mut text = Vec::new(alloc);
    add(
        &mut text,
        "kernel: reads\nburst width: 8\nunroll factor: 4\ninput uint8: a(*)\n",
    )?;
    let mut first = 30720i32;
    for number in 0..locals {
        add(
            &mut text,
            format!(in alloc; "local uint8: t{number}(0) = ")?.as_str(),
        )?;
        if number > 0 {
            let before = number - 1;
            add(&mut text, format!(in alloc; "t{before}(0) + ")?.as_str())?;
        }
        add_reads(alloc, &mut text, first, -4, CELLS)?;
        first = first.wrapping_sub(4 * CELLS as i32);
        add(&mut text, "\n")?;
    }
    let last = locals.saturating_sub(1);
    add(
        &mut text,
        format!(in alloc; "output uint8: o(0) = t{last}(0)\n")?.as_str(),
    )?;
    Ok(text)
}

/// The text of a program of a kind.
pub fn text_of(alloc: Global, kind: Kind, size: u32) -> Result<Vec<u8>, NoMemory> {
    match kind {
        Kind::Lanes => lanes_text(alloc, size),
        Kind::Reads => reads_text(alloc, size),
    }
}
