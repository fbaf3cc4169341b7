ghost use Rattle.std.specs.Prelude.{◌≡◌, ◌<◌, ◌&&◌, IfOk, None, Some, length, map, pos, slice_index_or, if◌then◌else◌};
ghost use Rattle.soda_words.specs.IntType.{int32};
ghost use Rattle.soda_ir.specs.Counts.{is_output, output_number};
ghost use Rattle.soda_ir.specs.Program.{plain, preserves};
ghost use Rattle.time_stages.specs.Staged.{staged, type_of};
ghost use Rattle.lane_code.specs.Reads.{plain_read};
ghost use Rattle.staged_cells.specs.Cells.{reads_by};
ghost use Rattle.compute_modules.specs.pieces.Taps.{read_tap, tap_at, taken};

use crate::NoMemory;
use delay_net::Read;
use int_types::wrap;
use lane_code::CellRead;
use soda_ir::{Parts, Program, distance};
use soda_words::Ty;
use staged_cells::{is_output, output_number, port_of};
use std::alloc::Global;
use time_stages::{Staged, number_read};

/// A port, with the type of what is read there.
#[derive(Clone, Copy)]
pub(crate) struct Tap {
    /// The port's number.
    pub port: usize,
    /// The type.
    pub ty: Ty,
}

impl Tap {
    /// What the port holds, wrapped to the type, and 0 where there is no such port.
    pub(crate) fn take(self, ports: &[i128]) -> i128
        ensures { result ≡ taken ports.now self }
    {
        let held = match ports.get(self.port) {
            Some(value) => *value,
            None => 0,
        };
        wrap(self.ty, held)
    }
}

/// What is at the port of each tap.
pub(crate) fn take_all(taps: &[Tap], ports: &[i128], values: &mut [i128])
    requires { length values.old ≡ length taps.now }
    ensures { values.new ≡ map (taken ports.now) taps.now }
{
    for i in 0..values.len() {
        values[i] = taps[i].take(ports);
    }
}

/// The type of a tensor, and int32 past the last.
pub(crate) fn type_of(parts: &Parts, tensor: u32) -> Ty
    ensures { result ≡ type_of (plain parts.now) tensor }
{
    match parts.tensors.get(tensor as usize) {
        Some(tensor) => tensor.ty,
        None => int_types::int32(),
    }
}

/// How many ports a staged tensor has: one for each of its reads.
pub(crate) fn count_ports(reads: &[Read], reader: u32) -> usize
    ensures { result ≡ length (reads_by reads.now reader) }
{
    let mut count = 0;
    for read in reads {
        if read.reader == reader {
            count += 1;
        }
    }
    count
}

// The tap of a staged tensor of an iteration that serves a tensor at a distance.
fn tap_at(
    program: &Program,
    staging: &Staged,
    number: u32,
    turn: u32,
    tensor: u32,
    offset: i128,
) -> Tap
    requires { staging.now ≡ staged (plain program.now) }
    ensures { result ≡ tap_at (plain program.now) number turn tensor offset }
{
    let parts = program.parts();
    let of = number_read(parts, staging.tensors.as_slice(), turn, tensor);
    Tap {
        port: port_of(staging.reads.as_slice(), number, of, offset),
        ty: type_of(parts, tensor),
    }
}

// The tap that serves a cell of a formula.
fn read_tap(program: &Program, staging: &Staged, number: u32, turn: u32, read: &CellRead) -> Tap
    requires { staging.now ≡ staged (plain program.now) }
    ensures { result ≡ read_tap (plain program.now) number turn (plain_read read.now) }
{
    let extents = program.parts().extents.as_slice();
    let offset = distance(extents, read.offset.as_slice());
    tap_at(program, staging, number, turn, read.tensor, offset)
}

/// The tap of each cell that the code of a staged tensor's formula reads, in order.
pub(crate) fn read_taps(
    alloc: Global,
    program: &Program,
    staging: &Staged,
    number: u32,
    turn: u32,
    reads: &[CellRead],
) -> Result<Vec<Tap>, NoMemory>
    requires { staging.now ≡ staged (plain program.now) }
    ensures { IfOk result
        (λ taps. taps.items ≡ map (λ r. read_tap (plain program.now) number turn (plain_read r)) reads.now) }
{
    let mut taps = Vec::new(alloc);
    for read in reads {
        taps.push(read_tap(program, staging, number, turn, read))?;
    }
    Ok(taps)
}

/// The tap of an output's added read under preserve, and none for any other tensor.
pub(crate) fn border_tap(
    program: &Program,
    staging: &Staged,
    number: u32,
    turn: u32,
    tensor: u32,
) -> Option<Tap>
    requires { staging.now ≡ staged (plain program.now) }
    ensures { result ≡ (if preserves (plain program.now) && is_output (plain program.now) tensor then
        Some (tap_at (plain program.now) number turn (output_number (plain program.now) tensor) (pos 0)) else None) }
{
    let parts = program.parts();
    let has_border = parts.is_preserved() & is_output(parts, tensor);
    if has_border {
        let input = output_number(parts, tensor);
        Some(tap_at(program, staging, number, turn, input, 0))
    } else {
        None
    }
}
