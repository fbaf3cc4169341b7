ghost use Rattle.std.specs.Prelude.{◌≡◌, ℕ, ◌<◌, ◌≤◌, ◌^◌, ◌&&◌, ◌++◌, ◌∷◌, [], List, Some, false, ℤ, pos, length, slice_get, slice_index_or, if◌then◌else◌};
ghost use Rattle.soda_words.specs.IntType.{int32};
ghost use Rattle.soda_words.specs.Limits.{most_cells};
ghost use Rattle.int_types.specs.Ranges.{InRange};
ghost use Rattle.soda_ir.specs.Counts.{formula_in, is_input, is_output, output_number};
ghost use Rattle.soda_ir.specs.Formula.{Formula, by_formula};
ghost use Rattle.soda_ir.specs.Points.{size};
ghost use Rattle.soda_ir.specs.Program.{plain, preserves};
ghost use Rattle.soda_eval.specs.Arrays.{Each};
ghost use Rattle.soda_eval.specs.Runs.{HasValues, cells_at, place_types, scope_of};
ghost use Rattle.soda_eval.specs.Values.{valued};
ghost use Rattle.time_stages.specs.declared.staging.StagedTensor.{StagedTensor};
ghost use Rattle.time_stages.specs.Staged.{number_read, staged, staged_reads, staged_tensors};
ghost use Rattle.staged_cells.specs.Cells.{PortsHold, defined_cell, port_of, port_types, sent_cell};
ghost use Rattle.staged_cells.specs.pieces.Ports.{place_in, port_value, sent_at};

use crate::ports::Ports;
use crate::region::{is_cell, is_kept};
use int_types::wrap;
use soda_eval::{eval, tensor_type};
use soda_ir::{Parts, Program};
use time_stages::{Staged, number_read};

/// Whether a tensor is an output.
pub fn is_output(parts: &Parts, tensor: u32) -> bool
    ensures { result ≡ is_output (plain parts.now) tensor }
{
    match parts.tensors.get(tensor as usize) {
        Some(tensor) => tensor.role.is_output(),
        None => false,
    }
}

/// How many outputs stand before a tensor.
pub fn output_number(parts: &Parts, tensor: u32) -> u32
    ensures value { result ≡ output_number (plain parts.now) tensor }
    ensures most { result ≤ tensor }
{
    let mut number = 0;
    for before in 0..tensor {
        if is_output(parts, before) {
            number += 1;
        }
    }
    number
}

// The ports of a staged tensor, where they hold these values.
fn ports_of<'a>(
    program: &'a Program,
    staging: &'a Staged,
    number: u32,
    turn: u32,
    values: &'a [i128],
) -> Ports<'a>
    requires { staging.now ≡ staged (plain program.now) }
    ensures parts { result.parts.now ≡ program.now }
    ensures tensors { result.tensors.now ≡ staged_tensors (plain program.now) }
    ensures reads { result.reads.now ≡ staged_reads (plain program.now) }
    ensures number { result.number ≡ number }
    ensures turn { result.turn ≡ turn }
    ensures values { result.values.now ≡ values.now }
{
    Ports {
        parts: program.parts(),
        tensors: staging.tensors.as_slice(),
        reads: staging.reads.as_slice(),
        number,
        turn,
        values,
    }
}

// The value of a tensor's formula over what the ports hold, and 0 for an input.
fn formula_value(program: &Program, params: &[i128], tensor: u32, ports: &Ports<'_>) -> i128
    requires params { HasValues (place_types (plain program.now).params) params.now }
    requires ports { (f : Formula) → formula_in (plain program.now) tensor ≡ Some f
        → Each (λ y o. InRange (slice_index_or (scope_of (plain program.now)).tensors y int32)
        (port_value ports.now y o)) f }
    ensures { result ≡ by_formula (formula_in (plain program.now) tensor) (pos 0)
        (valued (scope_of (plain program.now)) (port_value ports.now) params.now) }
{
    let parts = program.parts();
    match parts.formula(tensor) {
        Some(formula) => eval(program, formula, ports, params),
        None => 0,
    }
}

// What an output under preserve takes from its port of the added read, and 0 for any other tensor.
fn border_value(parts: &Parts, tensor: u32, ports: &Ports<'_>) -> i128
    requires few { length ports.now.tensors.now < 2 ^ 32 }
    requires within { length parts.now.tensors < 2 ^ 32 }
    ensures { result ≡ (if preserves (plain parts.now) && is_output (plain parts.now) tensor then
        slice_index_or ports.now.values.now (port_of ports.now.reads.now ports.now.number
        (number_read (plain parts.now) ports.now.tensors.now ports.now.turn (output_number (plain parts.now) tensor))
        (pos 0)) (pos 0) else pos 0) }
{
    let has_border = parts.is_preserved() & is_output(parts, tensor);
    if has_border {
        let input = output_number(parts, tensor);
        ports.at(number_read(parts, ports.tensors, ports.turn, input), 0)
    } else {
        0
    }
}

// The cell number that there is, if any. The extents are all but the last.
fn place_of(extents: &[u64], rows: u64, index: i64) -> Option<u64>
    ensures { result ≡ place_in (size (extents.now ++ rows ∷ [])) index }
{
    if index >= 0 && is_cell(extents, rows, index as u64) {
        Some(index as u64)
    } else {
        None
    }
}

// What a computing module of a staged tensor sends for a cell that is there.
fn sent(
    program: &Program,
    staging: &Staged,
    rows: u64,
    params: &[i128],
    tensor: u32,
    place: u64,
    values: &[i128],
) -> i128
    requires staging { staging.now ≡ staged (plain program.now) }
    requires params { HasValues (place_types (plain program.now).params) params.now }
    requires tensor { tensor < length (staged_tensors (plain program.now)) }
    requires ports { HasValues (port_types (plain program.now) tensor) values.now }
    ensures { (s : StagedTensor) → slice_get (staged_tensors (plain program.now)) tensor ≡ Some s
        → result ≡ sent_at (plain program.now) rows params.now tensor s values.now place }
{
    let parts = program.parts();
    let staged = &staging.tensors.as_slice()[tensor as usize];
    let ports = ports_of(program, staging, tensor, staged.turn, values);
    if is_kept(parts, staging, rows, tensor, place) {
        let value = formula_value(program, params, staged.tensor, &ports);
        wrap(tensor_type(parts, staged.tensor), value)
    } else {
        border_value(parts, staged.tensor, &ports)
    }
}

/// What a computing module of a staged tensor sends for the cell of a number, where its ports hold these values: the
/// cell where the ports hold the defined cells, whatever those hold whose reads are of no cell; and 0 where there is no
/// cell of this number. The staged program is that of the program, an array has at most `most_cells` cells, `params`
/// has the values of all params in order, in range, the tensor is no input, and there is a port for each of its reads
/// in order, with a value in the range of what is read.
pub fn cell_of(
    program: &Program,
    staging: &Staged,
    rows: u64,
    params: &[i128],
    tensor: u32,
    index: i64,
    ports: &[i128],
) -> i128
    requires staging { staging.now ≡ staged (plain program.now) }
    requires small { cells_at (plain program.now) rows ≤ most_cells }
    requires params { HasValues (place_types (plain program.now).params) params.now }
    requires tensor { (s : StagedTensor) × (slice_get (staged_tensors (plain program.now)) tensor ≡ Some s)
        × (is_input (plain program.now) s.tensor ≡ false) }
    requires ports { HasValues (port_types (plain program.now) tensor) ports.now }
    ensures value { (s : StagedTensor) → slice_get (staged_tensors (plain program.now)) tensor ≡ Some s
        → result ≡ sent_cell (plain program.now) rows params.now tensor s ports.now index }
    ensures defined { (s : StagedTensor) (inputs : List (List ℤ))
        → slice_get (staged_tensors (plain program.now)) tensor ≡ Some s
        → PortsHold (plain program.now) rows params.now inputs tensor index ports.now
        → result ≡ defined_cell (plain program.now) rows params.now inputs s index }
{
    match place_of(program.parts().extents.as_slice(), rows, index) {
        Some(place) => sent(program, staging, rows, params, tensor, place, ports),
        None => 0,
    }
}
