ghost use Rattle.std.specs.Prelude.{◌≡◌, ◌≤◌, ◌<◌, ◌^◌, ◌&&◌, ◌==◌, ◌++◌, ◌∷◌, [], pos, length, slice_index_or, if◌then◌else◌};
ghost use Rattle.std.specs.Ordering.{int_eq};
ghost use Rattle.soda_ir.specs.Counts.{reach};
ghost use Rattle.soda_ir.specs.Points.{linear};
ghost use Rattle.soda_ir.specs.Program.{extents_at, plain};
ghost use Rattle.time_stages.specs.Staged.{number_read};
ghost use Rattle.staged_cells.specs.Cells.{port_of};

use delay_net::Read;
use soda_eval::Cells;
use soda_ir::{Offset, Parts, distance};
use time_stages::{StagedTensor, number_read};

/// What the ports of a staged tensor hold.
#[derive(Drop)]
pub(crate) struct Ports<'a> {
    /// The program's parts.
    pub parts: &'a Parts,
    /// The staged tensors.
    pub tensors: &'a [StagedTensor],
    /// The reads of all of them.
    pub reads: &'a [Read],
    /// The number of the staged tensor.
    pub number: u32,
    /// Its iteration.
    pub turn: u32,
    /// The value at each port.
    pub values: &'a [i128],
    ghost few: { length tensors.now < 2 ^ 32 },
    ghost within: { length parts.now.tensors < 2 ^ 32 },
    ghost small: { reach parts.now.extents ≤ 2 ^ 26 },
}

impl<'a> Cells for Ports<'a> {
    ghost value = { λ s t o. slice_index_or s.values.now (port_of s.reads.now s.number
        (number_read (plain s.parts.now) s.tensors.now s.turn t) (linear (extents_at (plain s.parts.now) 1) o))
        (pos 0) };

    fn cell(&self, tensor: u32, offset: &Offset) -> i128 {
        self.at(
            number_read(self.parts, self.tensors, self.turn, tensor),
            distance(self.parts.extents.as_slice(), offset.as_slice()),
        )
    }
}

impl<'a> Ports<'a> {
    /// What the port of a read holds, by the number of what is read and how far away the cell stands.
    pub(crate) fn at(&self, of: u32, offset: i128) -> i128
        ensures { result ≡ slice_index_or self.now.values.now (port_of self.now.reads.now self.now.number of offset)
            (pos 0) }
    {
        value_at(self.values, port_of(self.reads, self.number, of, offset))
    }
}

// The value at a place, and 0 past the last.
fn value_at(values: &[i128], place: usize) -> i128
    ensures { result ≡ slice_index_or values.now place (pos 0) }
{
    match values.get(place) {
        Some(value) => *value,
        None => 0,
    }
}

fn is_read(read: Read, of: u32, offset: i128) -> bool
    ensures { result ≡ (read.of == of && int_eq read.offset offset) }
{
    (read.of == of) & (read.offset as i128 == offset)
}

fn one_if(test: bool) -> usize
    ensures value { result ≡ (if test then 1 else 0) }
    ensures most { result ≤ 1 }
{
    if test { 1 } else { 0 }
}

/// The port of a read, by its reader, what is read and how far away it stands: how many reads of its reader stand
/// before it. Where there is no such read, it is the number of the reader's reads.
pub fn port_of(reads: &[Read], reader: u32, of: u32, offset: i128) -> usize
    ensures { result ≡ port_of reads.now reader of offset }
{
    let mut port = 0;
    for read in reads {
        let is_mine = read.reader == reader;
        if is_mine & is_read(*read, of, offset) {
            return port;
        }
        port += one_if(is_mine);
    }
    port
}
