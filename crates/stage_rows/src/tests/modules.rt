//! Computing modules beside the reference, firing by firing, over made values at their ports.

ghost use Rattle.std.specs.Prelude.{◌≡◌, ◌≤◌, Some, IfOk, false, length, slice_get};
ghost use Rattle.soda_words.specs.Limits.{most_cells};
ghost use Rattle.soda_ir.specs.Counts.{is_input};
ghost use Rattle.soda_ir.specs.Program.{plain};
ghost use Rattle.soda_eval.specs.Runs.{HasValues, cells_at, place_types};
ghost use Rattle.time_stages.specs.Staged.{staged, staged_tensors, type_of};
ghost use Rattle.staged_cells.specs.Cells.{port_types, type_at};

use compute_modules::ComputeModule;
use int_types::{Ty, int32, wrap};
use param_lines::{LineFail, read_params};
use soda_ir::{Parts, Program};
use soda_parse::{ParseFail, parse};
use soda_run::array_cells;
use soda_words::{MOST_CELLS, MOST_TEXT};
use staged_cells::{Unit, cell_of};
use std::alloc::{AllocError, Global};
use std::test::Fail;
use time_stages::{Staged, StagedTensor, stage};

// A program text, the lines of its params, and the last extent.
type Row = (&'static [u8], &'static [u8], u64);

const ROWS: &[Row] = &[
    // One dimension, twice, types of two widths.
    (
        b"kernel: twice\nburst width: 8\nunroll factor: 2\niterate: 2\ninput uint8: a(*)\n\
local int32: s(0) = a(0) * a(1) - a(-2)\noutput uint8: o(0) = s(0) / 3 + a(3)\n",
        b"",
        23,
    ),
    // Under preserve, three lanes.
    (
        b"kernel: twice\nburst width: 8\nunroll factor: 3\niterate: 2\nborder: preserve\ninput int7: a(*)\n\
output int7: o(0) = (a(-1) + a(1)) / 2\n",
        b"",
        11,
    ),
    // Two dimensions, and a param.
    (
        b"kernel: blur\nburst width: 16\nunroll factor: 4\nparam int32: w[2]\ninput uint16: a(5, *)\n\
local uint16: t(0, 0) = (a(0, 0) + a(0, 1) * w[1] + a(-1, 2)) / 3\n\
output uint16: o(0, 0) = select(t(0, 0) > t(1, 0), t(2, 0), -t(0, 0))\n",
        b"w 1 -7\n",
        6,
    ),
    // Three dimensions.
    (
        b"kernel: cube\nburst width: 8\nunroll factor: 1\nborder: preserve\ninput int8: a(3, 4, *)\n\
output int8: o(0, 0, 0) = a(1, -1, 1) * a(0, 1, 0) + a(-1, 0, -1)\n",
        b"",
        5,
    ),
];

// The type of a tensor, and int32 past the last.
fn type_of(parts: &Parts, tensor: u32) -> Ty
    ensures { result ≡ type_of (plain parts.now) tensor }
{
    match parts.tensors.get(tensor as usize) {
        Some(tensor) => tensor.ty,
        None => int32(),
    }
}

// The type of a staged tensor, and int32 past the last.
fn type_at(program: &Program, staging: &Staged, number: u32) -> Ty
    requires { staging.now ≡ staged (plain program.now) }
    ensures { result ≡ type_at (plain program.now) number }
{
    match staging.tensors.get(number as usize) {
        Some(stage) => type_of(program.parts(), stage.tensor),
        None => int32(),
    }
}

// Whether a tensor is an input.
fn is_input(parts: &Parts, tensor: u32) -> bool
    ensures { result ≡ is_input (plain parts.now) tensor }
{
    match parts.tensors.get(tensor as usize) {
        Some(tensor) => tensor.role.is_input(),
        None => false,
    }
}

// A number that follows from the one before.
fn made(seed: &mut u64) -> i128 {
    *seed = seed
        .wrapping_mul(6364136223846793005)
        .wrapping_add(1442695040888963407);
    (*seed >> 20) as i128 - 0x800_0000_0000
}

// A value in range for each port of a staged tensor.
fn make_ports(
    alloc: Global,
    program: &Program,
    staging: &Staged,
    number: u32,
    seed: &mut u64,
) -> Result<Vec<i128>, AllocError>
    requires { staging.now ≡ staged (plain program.now) }
    ensures { IfOk result (λ ports. HasValues (port_types (plain program.now) number) ports.items) }
{
    let mut ports = Vec::new(alloc);
    let reads = staging.reads.as_slice();
    for read in reads {
        if read.reader == number {
            let value = wrap(type_at(program, staging, read.of), made(seed));
            ports.push(value)?;
        }
    }
    Ok(ports)
}

// The same values in a type of at most 64 bits, out of its range.
fn out_of_range(alloc: Global, ports: &[i128]) -> Result<Vec<i128>, AllocError>
    ensures { IfOk result (λ held. length held.items ≡ length ports.now) }
{
    let mut held = Vec::new(alloc);
    for port in ports {
        held.push(port.wrapping_add(0x5_0000_0000_0000_0000))?;
    }
    Ok(held)
}

// Whether a module gives what the reference gives, in each of its firings up to past the end of the array.
fn agrees(
    alloc: Global,
    program: &Program,
    staging: &Staged,
    rows: u64,
    params: &[i128],
    number: u32,
    first: i64,
    step: u32,
) -> Result<bool, AllocError>
    requires staging { staging.now ≡ staged (plain program.now) }
    requires small { cells_at (plain program.now) rows ≤ most_cells }
    requires params { HasValues (place_types (plain program.now).params) params.now }
    requires tensor { (s : StagedTensor) × (slice_get (staged_tensors (plain program.now)) number ≡ Some s)
        × (is_input (plain program.now) s.tensor ≡ false) }
{
    let mut module = ComputeModule::new(
        alloc, program, staging, rows, params, number, first, step,
    )?;
    let mut index = first;
    let mut seed = 77u64;
    for _ in 0..100 {
        if index > 200 {
            return Ok(true);
        }
        let ports = make_ports(alloc, program, staging, number, &mut seed)?;
        let held = out_of_range(alloc, &ports)?;
        if module.next(&held) != cell_of(program, staging, rows, params, number, index, &ports) {
            return Ok(false);
        }
        index += i64::from(step);
    }
    Ok(true)
}

// Whether the modules of a staged tensor agree, at each lane, some from before the array on.
fn lanes_agree(
    alloc: Global,
    program: &Program,
    staging: &Staged,
    rows: u64,
    params: &[i128],
    number: u32,
) -> Result<bool, AllocError>
    requires staging { staging.now ≡ staged (plain program.now) }
    requires small { cells_at (plain program.now) rows ≤ most_cells }
    requires params { HasValues (place_types (plain program.now).params) params.now }
    requires tensor { (s : StagedTensor) × (slice_get (staged_tensors (plain program.now)) number ≡ Some s)
        × (is_input (plain program.now) s.tensor ≡ false) }
{
    for lane in 0..4u32 {
        let first = i64::from(lane) - 5;
        if !agrees(
            alloc,
            program,
            staging,
            rows,
            params,
            number,
            first,
            lane + 1,
        )? {
            return Ok(false);
        }
    }
    Ok(true)
}

// Whether the modules of all staged tensors agree.
fn all_agree(
    alloc: Global,
    program: &Program,
    rows: u64,
    params: &[i128],
) -> Result<bool, AllocError>
    requires params { HasValues (place_types (plain program.now).params) params.now }
{
    if array_cells(program, rows) > MOST_CELLS as u128 {
        return Ok(false);
    }
    let staging = stage(alloc, program)?;
    let count = staging.tensors.len();
    if count > 512 {
        return Ok(false);
    }
    for number in 0..count {
        let stage = &staging.tensors.as_slice()[number];
        if !is_input(program.parts(), stage.tensor) {
            if !lanes_agree(alloc, program, &staging, rows, params, number as u32)? {
                return Ok(false);
            }
        }
    }
    Ok(true)
}

// Whether a row holds.
fn holds(alloc: Global, row: &Row) -> Result<bool, AllocError> {
    let (text, lines, rows) = *row;
    match parse(alloc, text, MOST_TEXT) {
        Ok(program) => match read_params(alloc, &program, lines) {
            Ok(params) => all_agree(alloc, &program, rows, &params),
            Err(LineFail::Line(_)) => Ok(false),
            Err(LineFail::Memory) => Err(AllocError),
        },
        Err(ParseFail::Refused(_)) => Ok(false),
        Err(ParseFail::Memory) => Err(AllocError),
    }
}

// The number of the first row that doesn't hold, and the number of rows where all do.
fn first_wrong(alloc: Global) -> Result<usize, AllocError> {
    for number in 0..ROWS.len() {
        if !holds(alloc, &ROWS[number])? {
            return Ok(number);
        }
    }
    Ok(ROWS.len())
}

#[test]
fn modules_give_what_the_reference_gives(rt: HostRuntime) -> Result<(), Fail> {
    assert_eq!(rt; first_wrong(rt.alloc())?, ROWS.len());
    Ok(())
}
