ghost use Rattle.std.specs.Prelude.{◌≡◌, ◌+◌, ◌*◌, ◌^◌, ◌<◌, ◌≤◌, ◌&&◌, ◌||◌, ◌==◌, [], ℕ, map, false, not, length, slice_index_or, IfOk, if◌then◌else◌};
ghost use Rattle.std.specs.List.{list_any};
ghost use Rattle.soda_words.specs.Limits.{most_tensors};
ghost use Rattle.soda_ir.specs.Counts.{
  IsCountable,
  count_below,
  distinct_count,
  is_input,
  is_live,
  is_output,
  is_reached,
  live_count,
  output_number,
  read_count,
  reads_in,
  some_below,
  sum_below,
  tensor_reads,
};
ghost use Rattle.soda_ir.specs.Points.{listed};
ghost use Rattle.soda_ir.specs.Program.{plain};

use crate::NoMemory;
use crate::placing::is_marked;
use crate::program::Parts;
use crate::reads::{Read, all_reads, distinct_count};
use sqlite_items::Items;
use std::alloc::Global;

// Marks what these reads read.
fn mark(reads: &[Read], marks: &mut [bool])
    ensures { (y : ℕ) → y < length marks.old → slice_index_or marks.new y false
        ≡ (slice_index_or marks.old y false || list_any (λ r. r.of == y) reads.now) }
{
    for read in reads {
        let at = read.of as usize;
        if at < marks.len() {
            marks[at] = true;
        }
    }
}

// Marks what the tensors read that are marked and weren't before.
fn mark_read(graph: &[Items<Read>], before: &[bool], marks: &[bool], next: &mut [bool])
    requires { length graph.now < 2 ^ 32 }
    ensures { (y : ℕ) → y < length next.old → slice_index_or next.new y false
        ≡ (slice_index_or next.old y false
        || some_below (λ x. (slice_index_or marks.now x false && not (slice_index_or before.now x false))
        && reads_in graph.now x y) (length graph.now)) }
{
    for x in 0..graph.len() as u32 {
        if is_marked(marks, x) & !is_marked(before, x) {
            mark(graph[x as usize].as_slice(), next);
        }
    }
}

// The marks, and those of what the newly marked tensors read.
fn next_marks(
    alloc: Global,
    graph: &[Items<Read>],
    before: &[bool],
    marks: &[bool],
) -> Result<Vec<bool>, NoMemory>
    requires { length graph.now < 2 ^ 32 }
    ensures { IfOk result (λ next. (length next.items ≡ length marks.now)
        × ((y : ℕ) → y < length marks.now → slice_index_or next.items y false
        ≡ (slice_index_or marks.now y false
        || some_below (λ x. (slice_index_or marks.now x false && not (slice_index_or before.now x false))
        && reads_in graph.now x y) (length graph.now)))) }
{
    let mut next = Vec::from_slice(alloc, marks)?;
    mark_read(graph, before, marks, &mut next);
    Ok(next)
}

// Which tensors are reached from those that are wanted.
fn reached(alloc: Global, graph: &[Items<Read>], wanted: &[bool]) -> Result<Vec<bool>, NoMemory>
    requires few { length graph.now < 2 ^ 32 }
    requires each { length wanted.now ≡ length graph.now }
    ensures { IfOk result (λ marks. (length marks.items ≡ length graph.now)
        × ((y : ℕ) → y < length graph.now → slice_index_or marks.items y false
        ≡ is_reached (reads_in graph.now) (length graph.now) (λ x. slice_index_or wanted.now x false)
        (length graph.now) y)) }
{
    let mut before = Vec::new(alloc);
    let mut marks = Vec::from_slice(alloc, wanted)?;
    for round in 0..graph.len() {
        let next = next_marks(alloc, graph, &before, &marks)?;
        // A round that reaches nothing more is the last.
        if next.as_slice() == marks.as_slice() {
            return Ok(next);
        }
        before = marks;
        marks = next;
    }
    Ok(marks)
}

// The outputs.
fn outputs(alloc: Global, parts: &Parts) -> Result<Vec<bool>, NoMemory>
    requires { length parts.now.tensors < 2 ^ 32 }
    ensures { IfOk result (λ marks. marks.items ≡ listed (is_output (plain parts.now)) (length parts.now.tensors)) }
{
    let mut marks = Vec::new(alloc);
    for x in 0..parts.tensors.len() as u32 {
        marks.push(parts.is_output(x))?;
    }
    Ok(marks)
}

// The outputs that the iteration after theirs needs, where it needs what is marked.
fn outputs_needed(alloc: Global, parts: &Parts, needed: &[bool]) -> Result<Vec<bool>, NoMemory>
    requires { length parts.now.tensors < 2 ^ 32 }
    ensures { IfOk result (λ marks. marks.items
        ≡ listed (λ x. is_output (plain parts.now) x
        && slice_index_or needed.now (output_number (plain parts.now) x) false) (length parts.now.tensors)) }
{
    let mut marks = Vec::new(alloc);
    let mut number = 0;
    for x in 0..parts.tensors.len() as u32 {
        let output = parts.is_output(x);
        marks.push(output & is_marked(needed, number))?;
        number = next_number(number, output);
    }
    Ok(marks)
}

fn next_number(number: u32, output: bool) -> u32
    requires { number + 1 < 2 ^ 32 }
    ensures value { result ≡ number + (if output then 1 else 0) }
    ensures most { result ≤ number + 1 }
{
    if output { number + 1 } else { number }
}

// How many tensors are inputs.
fn input_count(parts: &Parts) -> u64
    requires { length parts.now.tensors < 2 ^ 32 }
    ensures value { result ≡ count_below (is_input (plain parts.now)) (length parts.now.tensors) }
    ensures most { result ≤ length parts.now.tensors }
{
    let mut count = 0;
    for x in 0..parts.tensors.len() as u32 {
        count += one_if(parts.is_input(x));
    }
    count
}

fn one_if(test: bool) -> u64
    ensures value { result ≡ (if test then 1 else 0) }
    ensures most { result ≤ 1 }
{
    if test { 1 } else { 0 }
}

// Whether a tensor is a local or output and marked.
fn is_counted(parts: &Parts, live: &[bool], tensor: u32) -> bool
    ensures { result ≡ (not (is_input (plain parts.now) tensor) && slice_index_or live.now tensor false) }
{
    !parts.is_input(tensor) & is_marked(live, tensor)
}

// How many locals and outputs are marked.
fn statement_count(parts: &Parts, live: &[bool]) -> u64
    requires { length parts.now.tensors < 2 ^ 32 }
    ensures value { result ≡ count_below (λ x. not (is_input (plain parts.now) x) && slice_index_or live.now x false)
        (length parts.now.tensors) }
    ensures most { result ≤ length parts.now.tensors }
{
    let mut count = 0;
    for x in 0..parts.tensors.len() as u32 {
        count += one_if(is_counted(parts, live, x));
    }
    count
}

// How many reads each tensor has.
fn sizes(alloc: Global, graph: &[Items<Read>]) -> Result<Vec<u64>, NoMemory>
    ensures { IfOk result (λ sizes. sizes.items ≡ map distinct_count graph.now) }
{
    let mut sizes = Vec::new(alloc);
    for reads in graph {
        sizes.push(distinct_count(reads.as_slice()))?;
    }
    Ok(sizes)
}

fn size_if(test: bool, sizes: &[u64], tensor: u32) -> u64
    ensures { result ≡ (if test then slice_index_or sizes.now tensor 0 else 0) }
{
    if test {
        match sizes.get(tensor as usize) {
            Some(size) => *size,
            None => 0,
        }
    } else {
        0
    }
}

// How many reads the marked locals and outputs have.
fn statement_reads(parts: &Parts, live: &[bool], sizes: &[u64]) -> u128
    requires { length parts.now.tensors ≤ most_tensors }
    ensures value { result ≡ sum_below (λ x. if not (is_input (plain parts.now) x) && slice_index_or live.now x false
        then slice_index_or sizes.now x 0 else 0) (length parts.now.tensors) }
    ensures most { result ≤ 2 ^ 64 * most_tensors }
{
    let mut count = 0;
    for x in 0..parts.tensors.len() as u32 {
        count += size_if(is_counted(parts, live, x), sizes, x) as u128;
    }
    count
}

/// How many live tensors and reads a program has.
#[derive(Clone, Copy)]
pub(crate) struct Totals {
    pub live: u64,
    pub reads: u128,
}

/// Counts over all iterations, from the last to the first.
pub(crate) fn tally(alloc: Global, parts: &Parts) -> Result<Totals, NoMemory>
    requires { IsCountable (plain parts.now) }
    ensures live { IfOk result (λ t. t.live ≡ live_count (plain parts.now)) }
    ensures reads { IfOk result (λ t. t.reads ≡ read_count (plain parts.now)) }
{
    let graph = all_reads(alloc, parts)?;
    let sizes = sizes(alloc, &graph)?;
    let mut live = input_count(parts);
    let mut reads = 0;
    let mut wanted = outputs(alloc, parts)?;
    for later in 0..parts.iterate {
        let marks = reached(alloc, &graph, &wanted)?;
        live += statement_count(parts, &marks);
        reads += statement_reads(parts, &marks, &sizes);
        wanted = outputs_needed(alloc, parts, &marks)?;
    }
    Ok(Totals { live, reads })
}

/// Which tensors are live, iteration by iteration from the last to the first: for each a mark for every tensor. Its
/// cells are there and near, and the limits `iterate`, `dims`, `tile` and `tensors` are kept.
pub fn live_tensors(alloc: Global, parts: &Parts) -> Result<Vec<Items<bool>>, NoMemory>
    requires { IsCountable (plain parts.now) }
    ensures { IfOk result (λ live. live.items ≡ listed (λ later. listed (is_live (plain parts.now) later)
        (length parts.now.tensors)) (plain parts.now).iterate) }
{
    let graph = all_reads(alloc, parts)?;
    let mut live = Vec::new(alloc);
    let mut wanted = outputs(alloc, parts)?;
    for later in 0..parts.iterate {
        let marks = reached(alloc, &graph, &wanted)?;
        wanted = outputs_needed(alloc, parts, &marks)?;
        live.push(Items::from_vec(marks))?;
    }
    Ok(live)
}

/// How many live tensors a program of these parts has: the inputs of its first iteration, and the live locals and
/// outputs of all its iterations. Its cells are there and near, and the limits `iterate`, `dims`, `tile` and `tensors`
/// are kept.
pub fn live_count(alloc: Global, parts: &Parts) -> Result<u64, NoMemory>
    requires { IsCountable (plain parts.now) }
    ensures { IfOk result (λ count. count ≡ live_count (plain parts.now)) }
{
    Ok(tally(alloc, parts)?.live)
}

/// How many reads the live locals and outputs of a program of these parts have, over all its iterations: each pair of
/// what is read and how far away, once for a reader. Its cells are there and near, and the limits `iterate`, `dims`,
/// `tile` and `tensors` are kept.
pub fn read_count(alloc: Global, parts: &Parts) -> Result<u128, NoMemory>
    requires { IsCountable (plain parts.now) }
    ensures { IfOk result (λ count. count ≡ read_count (plain parts.now)) }
{
    Ok(tally(alloc, parts)?.reads)
}
