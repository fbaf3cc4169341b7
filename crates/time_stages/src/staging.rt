ghost use Rattle.std.specs.Prelude.{◌≡◌, ℕ, ◌-◌, ◌<◌, ◌≤◌, ◌^◌, suc, [], ◌∷◌, ◌++◌, false, length, map, slice_index_or, filter, IfOk, OnOk, if◌then◌else◌};
ghost use Rattle.soda_words.specs.Limits.{most_live};
ghost use Rattle.soda_ir.specs.Points.{listed};
ghost use Rattle.soda_ir.specs.Program.{plain};
ghost use Rattle.time_stages.specs.Margins.{AreMade};
ghost use Rattle.time_stages.specs.Staged.{inputs_of, live_statements, staged, staged_tensor, staged_tensors};
ghost use Rattle.time_stages.specs.pieces.Stages.{IsFrame, stage_at, with_margins};

use crate::NoMemory;
use crate::iterations::{first_margins, next_margins};
use crate::margins::Margins;
use crate::outputs::output_numbers;
use crate::placing::{inputs_marked, is_marked, placing_order};
use crate::readings::staged_reads;
use delay_net::Read;
use soda_ir::{Parts, Program, live_tensors};
use sqlite_items::Items;
use std::alloc::Global;

/// A live tensor of an iteration. Its region is the points that keep its margins: those with `low[i] <= p[i]` and
/// `p[i] + high[i] < n[i]` in each dimension i of n[i] points.
#[derive(Drop)]
pub struct StagedTensor {
    /// The iteration, from 1.
    pub turn: u32,
    /// The tensor's number in the program.
    pub tensor: u32,
    /// How far its region keeps from the first points, in cells, one number a dimension.
    pub low: Items<u64>,
    /// How far its region keeps from the last points, in cells, one number a dimension.
    pub high: Items<u64>,
}

/// A program with its iterations unrolled.
#[derive(Drop)]
pub struct Staged {
    /// The inputs of the first iteration, and then the live locals and outputs of all iterations, in placing order. An
    /// input of a later iteration is the output of its number, of the iteration before.
    pub tensors: Items<StagedTensor>,
    /// What they read: each pair of what is read and how far away it stands in the array, once for a reader. They are
    /// ordered by reader, then by what is read, then by offset; both are numbers of staged tensors.
    pub reads: Items<Read>,
}

// What the staging of all iterations shares.
#[derive(Drop)]
struct Frame {
    // The locals and outputs in placing order.
    order: Items<u32>,
    // The outputs in number order.
    outputs: Items<u32>,
    // The live tensors of each iteration, from the last to the first.
    live: Items<Items<bool>>,
}

fn make_frame(alloc: Global, program: &Program) -> Result<Frame, NoMemory>
    ensures { IfOk result (λ frame. IsFrame (plain program.now) frame) }
{
    let parts = program.parts();
    let order = Items::from_vec(placing_order(alloc, program)?);
    let outputs = Items::from_vec(output_numbers(alloc, parts)?);
    let live = Items::from_vec(live_tensors(alloc, parts)?);
    Ok(Frame {
        order,
        outputs,
        live,
    })
}

// A tensor of an iteration that has these margins there.
fn make_tensor(
    alloc: Global,
    turn: u32,
    tensor: u32,
    margins: &Margins,
) -> Result<StagedTensor, NoMemory>
    ensures { IfOk result (λ s. s ≡ with_margins turn tensor margins.now) }
{
    let low = Items::from_slice(alloc, margins.low.as_slice())?;
    let high = Items::from_slice(alloc, margins.high.as_slice())?;
    Ok(StagedTensor {
        turn,
        tensor,
        low,
        high,
    })
}

// Adds a tensor of an iteration, if it is marked.
fn add_if(
    alloc: Global,
    is_marked: bool,
    turn: u32,
    tensor: u32,
    margins: &Margins,
    tensors: &mut Vec<StagedTensor>,
) -> Result<(), NoMemory>
    ensures { OnOk result (tensors.new.items ≡ tensors.old.items
        ++ (if is_marked then with_margins turn tensor margins.now ∷ [] else [])) }
{
    if is_marked {
        tensors.push(make_tensor(alloc, turn, tensor, margins)?)?;
    }
    Ok(())
}

// Adds those of these tensors that are marked, as tensors of an iteration where all tensors have these margins.
fn add_marked(
    alloc: Global,
    turn: u32,
    numbers: &[u32],
    marks: &[bool],
    margins: &[Margins],
    tensors: &mut Vec<StagedTensor>,
) -> Result<(), NoMemory>
    requires { (j : ℕ) → j < length numbers.now → slice_index_or numbers.now j 0 < length margins.now }
    ensures { OnOk result (tensors.new.items ≡ tensors.old.items
        ++ map (stage_at turn margins.now) (filter (λ x. slice_index_or marks.now x false) numbers.now)) }
{
    for number in numbers {
        let at = *number as usize;
        add_if(
            alloc,
            is_marked(marks, *number),
            turn,
            *number,
            &margins[at],
            tensors,
        )?;
    }
    Ok(())
}

// The numbers below one.
fn all_numbers(alloc: Global, count: u32) -> Result<Vec<u32>, NoMemory>
    ensures { IfOk result (λ numbers. numbers.items ≡ listed (λ x. x) count) }
{
    let mut numbers = Vec::new(alloc);
    for number in 0..count {
        numbers.push(number)?;
    }
    Ok(numbers)
}

// Adds the inputs of the first iteration.
fn add_inputs(
    alloc: Global,
    parts: &Parts,
    margins: &[Margins],
    tensors: &mut Vec<StagedTensor>,
) -> Result<(), NoMemory>
    requires few { length parts.now.tensors < 2 ^ 32 }
    requires made { AreMade (plain parts.now) 0 margins.now }
    ensures { OnOk result (tensors.new.items ≡ tensors.old.items
        ++ map (staged_tensor (plain parts.now) 0) (inputs_of (plain parts.now))) }
{
    let numbers = all_numbers(alloc, parts.tensors.len() as u32)?;
    let marks = inputs_marked(alloc, parts)?;
    add_marked(alloc, 1, &numbers, &marks, margins, tensors)
}

// Adds the live locals and outputs of the iteration before which so many come.
fn add_iteration(
    alloc: Global,
    program: &Program,
    frame: &Frame,
    earlier: u64,
    margins: &[Margins],
    tensors: &mut Vec<StagedTensor>,
) -> Result<(), NoMemory>
    requires frame { IsFrame (plain program.now) frame.now }
    requires made { AreMade (plain program.now) earlier margins.now }
    requires there { earlier < (plain program.now).iterate }
    ensures { OnOk result (tensors.new.items ≡ tensors.old.items ++ map (staged_tensor (plain program.now) earlier)
        (live_statements (plain program.now) ((plain program.now).iterate - suc earlier))) }
{
    let later = (program.parts().iterate - 1 - earlier) as usize;
    add_marked(
        alloc,
        earlier as u32 + 1,
        frame.order.as_slice(),
        frame.live.as_slice()[later].as_slice(),
        margins,
        tensors,
    )
}

// The staged tensors.
fn staged_tensors(alloc: Global, program: &Program) -> Result<Vec<StagedTensor>, NoMemory>
    ensures value { IfOk result (λ tensors. tensors.items ≡ staged_tensors (plain program.now)) }
    ensures few { IfOk result (λ tensors. length tensors.items ≤ most_live) }
{
    let parts = program.parts();
    let frame = make_frame(alloc, program)?;
    let mut tensors = Vec::new(alloc);
    let mut margins = first_margins(alloc, program, frame.order.as_slice())?;
    add_inputs(alloc, parts, &margins, &mut tensors)?;
    add_iteration(alloc, program, &frame, 0, &margins, &mut tensors)?;
    for earlier in 0..parts.iterate - 1 {
        margins = next_margins(
            alloc,
            program,
            frame.order.as_slice(),
            frame.outputs.as_slice(),
            &margins,
        )?;
        add_iteration(alloc, program, &frame, earlier + 1, &margins, &mut tensors)?;
    }
    Ok(tensors)
}

/// The staged program of a program. It has at most 512 tensors and 16,384 reads.
pub fn stage(alloc: Global, program: &Program) -> Result<Staged, NoMemory>
    ensures { IfOk result (λ staging. staging ≡ staged (plain program.now)) }
{
    let tensors = Items::from_vec(staged_tensors(alloc, program)?);
    let reads = Items::from_vec(staged_reads(alloc, program, tensors.as_slice())?);
    Ok(Staged { tensors, reads })
}
