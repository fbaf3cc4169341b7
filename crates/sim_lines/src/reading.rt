ghost use Rattle.std.specs.Prelude.{◌≡◌, ◌++◌, ◌∷◌, [], ℕ, Some, None, map, true, IfOk, OnOk};
ghost use Rattle.std.specs.List.{filter_map};
ghost use Rattle.array_bytes.specs.Runs.{runs};
ghost use Rattle.soda_ir.specs.Program.{plain, plain_tensor};
ghost use Rattle.param_lines.specs.Lines.{rows_of};
ghost use Rattle.sim_lines.specs.Stalls.{end_named, first_wrong, is_end, is_fine, refused_line, stall_of};

use crate::NoMemory;
use crate::limits::MOST_STALL_BYTES;
use crate::stall::Stall;
use param_lines::{LineFail, next_run, split_line};
use soda_ir::{Parts, Program, Tensor};
use soda_words::{NameTable, number};
use std::alloc::Global;

// The names of tensors, in order.
fn names_of(alloc: Global, tensors: &[Tensor]) -> Result<NameTable<'_>, NoMemory>
    ensures { IfOk result (λ names. names ≡ map (λ t. t.name) (map plain_tensor tensors.now)) }
{
    let mut names = NameTable::new(alloc);
    for tensor in tensors {
        let _is_new = names.add(tensor.name.as_slice())?;
    }
    Ok(names)
}

// Whether a tensor is an input or an output.
fn is_end(parts: &Parts, tensor: usize) -> bool
    ensures { result ≡ is_end (plain parts.now) tensor }
{
    match parts.tensors.get(tensor) {
        Some(tensor) => tensor.role.is_input() || tensor.role.is_output(),
        None => false,
    }
}

// The number of the input or output of this name.
fn end_named(program: &Program, names: &NameTable, name: &[u8]) -> Option<u32>
    requires { names.now ≡ map (λ t. t.name) (plain program.now).tensors }
    ensures { result ≡ end_named (plain program.now) name.now }
{
    let parts = program.parts();
    let tensor = names.place(name)?;
    if is_end(parts, tensor) {
        Some(tensor as u32)
    } else {
        None
    }
}

// The stall that the words of a line list, where `first` is its first word.
fn stall_of(program: &Program, names: &NameTable, first: &[u8], rest: &[u8]) -> Option<Stall>
    requires { names.now ≡ map (λ t. t.name) (plain program.now).tensors }
    ensures { result ≡ stall_of (plain program.now) (first.now ∷ runs rest.now) }
{
    let (name, after) = next_run(rest)?;
    if next_run(after).is_some() {
        return None;
    }
    let cycle = number(first)?;
    let tensor = end_named(program, names, name)?;
    Some(Stall { cycle, tensor })
}

// Adds the stall that a line lists, if it lists one, and says whether the line is fine.
fn add_line(
    program: &Program,
    names: &NameTable,
    stalls: &mut Vec<Stall>,
    line: &[u8],
) -> Result<bool, NoMemory>
    requires { names.now ≡ map (λ t. t.name) (plain program.now).tensors }
    ensures fine { IfOk result (λ fine. fine ≡ is_fine (plain program.now) (runs line.now)) }
    ensures added { IfOk result (λ fine. fine ≡ true → stalls.new.items
        ≡ stalls.old.items ++ filter_map (stall_of (plain program.now)) (runs line.now ∷ [])) }
{
    let Some((first, rest)) = next_run(line) else {
        return Ok(true);
    };
    let Some(stall) = stall_of(program, names, first, rest) else {
        return Ok(false);
    };
    stalls.push(stall)?;
    Ok(true)
}

// Adds the stalls of all lines.
fn add_lines(
    program: &Program,
    names: &NameTable,
    stalls: &mut Vec<Stall>,
    bytes: &[u8],
) -> Result<(), LineFail>
    requires { names.now ≡ map (λ t. t.name) (plain program.now).tensors }
    ensures fine { OnOk result (first_wrong (plain program.now) (rows_of bytes.now) ≡ None) }
    ensures added { OnOk result (stalls.new.items
        ≡ stalls.old.items ++ filter_map (stall_of (plain program.now)) (rows_of bytes.now)) }
    ensures wrong { (line : ℕ) → result ≡ Err (LineFail.Line line)
        → first_wrong (plain program.now) (rows_of bytes.now) ≡ Some line }
{
    let mut rest = bytes;
    let mut number: u64 = 0;
    while rest.len() > 0 {
        let (line, after) = split_line(rest);
        number += 1;
        if !add_line(program, names, stalls, line)? {
            return Err(LineFail::Line(number));
        }
        rest = after;
    }
    Ok(())
}

/// The stalls that a stall file lists for a program, in the order of the file, repeated ones too. A line has the number
/// of a cycle, as in program texts, and the name of an input or output, separated by white space; lines of white space
/// only are passed over.
///
/// `Line(0)` first where there are more than `MOST_STALL_BYTES` bytes; then `Line` with the number of the first line,
/// from 1, that isn't of this form. `Memory` where memory was refused.
pub fn read_stalls(alloc: Global, program: &Program, bytes: &[u8]) -> Result<Vec<Stall>, LineFail>
    ensures listed { IfOk result (λ stalls. stalls.items
        ≡ filter_map (stall_of (plain program.now)) (rows_of bytes.now)) }
    ensures fine { OnOk result (refused_line (plain program.now) bytes.now ≡ None) }
    ensures refused { (line : ℕ) → result ≡ Err (LineFail.Line line)
        → refused_line (plain program.now) bytes.now ≡ Some line }
{
    if bytes.len() > MOST_STALL_BYTES {
        return Err(LineFail::Line(0));
    }
    let names = names_of(alloc, program.parts().tensors.as_slice())?;
    let mut stalls = Vec::new(alloc);
    add_lines(program, &names, &mut stalls, bytes)?;
    Ok(stalls)
}
