ghost use Rattle.std.specs.Prelude.{◌≡◌, ◌<◌, ◌^◌, ◌++◌, [], length, map, slice_index_or, IfOk, OnOk};
ghost use Rattle.soda_ir.specs.Counts.{tensor_reads};
ghost use Rattle.soda_ir.specs.Points.{listed};
ghost use Rattle.soda_ir.specs.Program.{plain};
ghost use Rattle.time_stages.specs.Staged.{
  in_order,
  is_stage,
  number_of,
  number_read,
  read_by,
  read_order,
  reads_of,
  reads_of_first,
};
ghost use Rattle.time_stages.specs.declared.staging.StagedTensor.{StagedTensor};
ghost use Rattle.time_stages.specs.pieces.Stages.{pair_read, reading_of};

use crate::NoMemory;
use crate::outputs::output_at;
use crate::placing::is_input;
use crate::staging::StagedTensor;
use delay_net::Read;
use soda_ir::{Parts, Program, Read as Reading, all_reads};
use sqlite_items::Items;
use std::alloc::Global;

fn is_stage(staged: &StagedTensor, turn: u32, tensor: u32) -> bool
    ensures { result ≡ is_stage turn tensor staged.now }
{
    (staged.turn == turn) & (staged.tensor == tensor)
}

/// The number of a tensor of an iteration: how many staged tensors stand before it.
pub(crate) fn number_of(tensors: &[StagedTensor], turn: u32, tensor: u32) -> u32
    requires { length tensors.now < 2 ^ 32 }
    ensures { result ≡ number_of tensors.now turn tensor }
{
    for number in 0..tensors.len() {
        if is_stage(&tensors[number], turn, tensor) {
            return number as u32;
        }
    }
    tensors.len() as u32
}

/// The number of what a tensor of an iteration reads: an input of a later iteration is the output of its number, of the
/// iteration before.
pub fn number_read(parts: &Parts, tensors: &[StagedTensor], turn: u32, tensor: u32) -> u32
    requires few { length tensors.now < 2 ^ 32 }
    requires within { length parts.now.tensors < 2 ^ 32 }
    ensures { result ≡ number_read (plain parts.now) tensors.now turn tensor }
{
    if is_input(parts, tensor) && turn != 1 {
        number_of(tensors, turn.saturating_sub(1), output_at(parts, tensor))
    } else {
        number_of(tensors, turn, tensor)
    }
}

// What a tensor of an iteration reads, by the numbers of staged tensors.
fn numbered(
    alloc: Global,
    parts: &Parts,
    tensors: &[StagedTensor],
    turn: u32,
    readings: &[Reading],
) -> Result<Vec<(u32, i64)>, NoMemory>
    requires few { length tensors.now < 2 ^ 32 }
    requires within { length parts.now.tensors < 2 ^ 32 }
    ensures { IfOk result (λ pairs. pairs.items ≡ map (pair_read (plain parts.now) tensors.now turn) readings.now) }
{
    let mut pairs = Vec::new(alloc);
    for reading in readings {
        let of = number_read(parts, tensors, turn, reading.of);
        pairs.push((of, reading.offset))?;
    }
    Ok(pairs)
}

// Puts pairs in order, each once.
fn put_in_order(pairs: &mut Vec<(u32, i64)>)
    ensures { map reading_of pairs.new.items ≡ in_order read_order (map reading_of pairs.old.items) }
{
    pairs.sort_unstable();
    pairs.dedup();
}

// Adds reads by one reader.
fn add_reads(reader: u32, pairs: &[(u32, i64)], reads: &mut Vec<Read>) -> Result<(), NoMemory>
    ensures { OnOk result (reads.new.items ≡ reads.old.items ++ map (λ q. read_by reader (reading_of q)) pairs.now) }
{
    for pair in pairs {
        let read = Read {
            reader,
            of: pair.0,
            offset: pair.1,
        };
        reads.push(read)?;
    }
    Ok(())
}

// What a tensor of the program reads, and nothing past the last.
fn readings_of(graph: &[Items<Reading>], tensor: u32) -> &[Reading]
    ensures { result.now ≡ slice_index_or graph.now tensor [] }
{
    match graph.get(tensor as usize) {
        Some(readings) => readings.as_slice(),
        None => &[],
    }
}

// Adds the reads of the staged tensor of a number, which has these in the program.
fn add_tensor(
    alloc: Global,
    parts: &Parts,
    tensors: &[StagedTensor],
    number: u32,
    graph: &[Items<Reading>],
    reads: &mut Vec<Read>,
) -> Result<(), NoMemory>
    requires few { length tensors.now < 2 ^ 32 }
    requires there { number < length tensors.now }
    requires within { length parts.now.tensors < 2 ^ 32 }
    requires graph { graph.now ≡ listed (tensor_reads (plain parts.now)) (length parts.now.tensors) }
    ensures { (d : StagedTensor) → OnOk result (reads.new.items ≡ reads.old.items
        ++ map (read_by number) (reads_of (plain parts.now) tensors.now (slice_index_or tensors.now number d))) }
{
    let staged = &tensors[number as usize];
    let readings = readings_of(graph, staged.tensor);
    let mut pairs = numbered(alloc, parts, tensors, staged.turn, readings)?;
    put_in_order(&mut pairs);
    add_reads(number, &pairs, reads)
}

/// The reads of these staged tensors, by reader.
pub(crate) fn staged_reads(
    alloc: Global,
    program: &Program,
    tensors: &[StagedTensor],
) -> Result<Vec<Read>, NoMemory>
    requires { length tensors.now < 2 ^ 32 }
    ensures { IfOk result (λ reads. reads.items
        ≡ reads_of_first (plain program.now) tensors.now (length tensors.now)) }
{
    let parts = program.parts();
    let graph = all_reads(alloc, parts)?;
    let mut reads = Vec::new(alloc);
    for number in 0..tensors.len() as u32 {
        add_tensor(alloc, parts, tensors, number, &graph, &mut reads)?;
    }
    Ok(reads)
}
