//! Program texts, and what staging makes of them.

ghost use Rattle.std.specs.Prelude.{◌≡◌, ◌<◌, ◌≤◌, length};
ghost use Rattle.soda_words.specs.Limits.{most_cells};
ghost use Rattle.soda_ir.specs.Program.{plain};
ghost use Rattle.soda_eval.specs.Runs.{cells_at};
ghost use Rattle.time_stages.specs.Staged.{staged, staged_tensors};

use delay_net::{Net, Read};
use soda_ir::Program;
use soda_parse::{ParseFail, parse};
use soda_run::array_cells;
use soda_words::{MOST_CELLS, MOST_TEXT};
use staged_cells::in_region;
use std::alloc::{AllocError, Global};
use std::test::Fail;
use time_stages::{Staged, StagedTensor, net_of, stage};

// An iteration, a tensor, its margins, and its region, a byte a cell: 1 for those inside.
type Stage = (u32, u32, &'static [u64], &'static [u64], &'static [u8]);

// A program text, the last extent, the staged tensors, what reads what how far away, and the widths.
type Row = (
    &'static [u8],
    u64,
    &'static [Stage],
    &'static [(u32, u32, i64)],
    &'static [u8],
);

const ROWS: &[Row] = &[
    // A mean along the second dimension, and one along the first.
    (
        b"kernel: blur\nburst width: 16\nunroll factor: 1\ninput uint16: a(4, *)\n\
local uint16: t(0, 0) = (a(0, 0) + a(0, 1) + a(0, 2)) / 3\n\
output uint16: o(0, 0) = (t(0, 0) + t(1, 0) + t(2, 0)) / 3\n",
        4,
        &[
            (1, 0, &[0, 0], &[0, 0], b"1111111111111111"),
            (1, 1, &[0, 0], &[0, 2], b"1111111100000000"),
            (1, 2, &[0, 0], &[2, 2], b"1100110000000000"),
        ],
        &[
            (1, 0, 0),
            (1, 0, 4),
            (1, 0, 8),
            (2, 1, 0),
            (2, 1, 1),
            (2, 1, 2),
        ],
        &[16, 16, 16],
    ),
    // Types of two widths, and a tensor of two readers.
    (
        b"kernel: far\nburst width: 32\nunroll factor: 1\ninput uint8: a(*)\nlocal int32: s(0) = a(0) * a(0)\n\
output int32: o(0) = s(0) + a(3)\n",
        5,
        &[
            (1, 0, &[0], &[0], b"11111"),
            (1, 1, &[0], &[0], b"11111"),
            (1, 2, &[0], &[3], b"11000"),
        ],
        &[(1, 0, 0), (2, 0, 3), (2, 1, 0)],
        &[8, 32, 32],
    ),
    // Twice: margins add up.
    (
        b"kernel: twice\nburst width: 8\nunroll factor: 1\niterate: 2\ninput uint8: a(*)\n\
output uint8: o(0) = (a(-1) + a(1)) / 2\n",
        6,
        &[
            (1, 0, &[0], &[0], b"111111"),
            (1, 1, &[1], &[1], b"011110"),
            (2, 1, &[2], &[2], b"001100"),
        ],
        &[(1, 0, -1), (1, 0, 1), (2, 1, -1), (2, 1, 1)],
        &[8, 8, 8],
    ),
    // Under preserve they don't, and each output reads its own place too.
    (
        b"kernel: twice\nburst width: 8\nunroll factor: 1\niterate: 2\nborder: preserve\ninput uint8: a(*)\n\
output uint8: o(0) = (a(-1) + a(1)) / 2\n",
        6,
        &[
            (1, 0, &[0], &[0], b"111111"),
            (1, 1, &[1], &[1], b"011110"),
            (2, 1, &[1], &[1], b"011110"),
        ],
        &[
            (1, 0, -1),
            (1, 0, 0),
            (1, 0, 1),
            (2, 1, -1),
            (2, 1, 0),
            (2, 1, 1),
        ],
        &[8, 8, 8],
    ),
    // A local that no output reads, and an output that the last iteration doesn't read, are not staged. An input that
    // nothing reads is.
    (
        b"kernel: dead\nburst width: 8\nunroll factor: 1\niterate: 2\ninput uint8: a(*)\ninput uint8: b(*)\n\
local uint8: t(0) = b(0)\noutput uint8: o(0) = a(1)\noutput uint8: p(0) = a(2) + a(0)\n",
        5,
        &[
            (1, 0, &[0], &[0], b"11111"),
            (1, 1, &[0], &[0], b"11111"),
            (1, 3, &[0], &[1], b"11110"),
            (2, 3, &[0], &[2], b"11100"),
            (2, 4, &[0], &[3], b"11000"),
        ],
        &[(2, 0, 1), (3, 2, 1), (4, 2, 0), (4, 2, 2)],
        &[8, 8, 8, 8, 8],
    ),
];

// Whether a staged tensor is this.
fn is(tensor: &StagedTensor, wanted: &Stage) -> bool {
    let (turn, number, low, high, _) = *wanted;
    tensor.turn == turn
        && tensor.tensor == number
        && tensor.low.as_slice() == low
        && tensor.high.as_slice() == high
}

// Whether staged tensors are these.
fn are(tensors: &[StagedTensor], wanted: &[Stage]) -> bool {
    match tensors {
        [] => wanted.is_empty(),
        [tensor, rest @ ..] => match wanted {
            [] => false,
            [this, others @ ..] => is(tensor, this) && are(rest, others),
        },
    }
}

// Whether reads are these.
fn are_reads(reads: &[Read], wanted: &[(u32, u32, i64)]) -> bool {
    match reads {
        [] => wanted.is_empty(),
        [read, rest @ ..] => match wanted {
            [] => false,
            [this, others @ ..] => {
                let (reader, of, offset) = *this;
                read.reader == reader
                    && read.of == of
                    && read.offset == offset
                    && are_reads(rest, others)
            }
        },
    }
}

// Whether a net is of these.
fn is_net(net: &Net, reads: &[(u32, u32, i64)], widths: &[u8]) -> bool {
    net.weights() == widths && are_reads(net.reads(), reads)
}

// Whether a staged tensor's region is this.
fn is_region(program: &Program, staging: &Staged, rows: u64, tensor: u32, wanted: &[u8]) -> bool
    requires staging { staging.now ≡ staged (plain program.now) }
    requires tensor { tensor < length (staged_tensors (plain program.now)) }
{
    let cells = array_cells(program, rows);
    if cells > MOST_CELLS as u128 || cells != wanted.len() as u128 {
        return false;
    }
    for index in 0..wanted.len() {
        if in_region(program, staging, rows, tensor, index as u64) != (wanted[index] == b'1') {
            return false;
        }
    }
    true
}

// Whether the regions are these.
fn are_regions(program: &Program, staging: &Staged, rows: u64, wanted: &[Stage]) -> bool
    requires staging { staging.now ≡ staged (plain program.now) }
{
    if staging.tensors.len() != wanted.len() || wanted.len() > 512 {
        return false;
    }
    for number in 0..wanted.len() {
        let (_, _, _, _, region) = wanted[number];
        if !is_region(program, staging, rows, number as u32, region) {
            return false;
        }
    }
    true
}

// Whether staging makes of a program what a row says.
fn is_staged(alloc: Global, program: &Program, row: &Row) -> Result<bool, AllocError> {
    let (_, rows, tensors, reads, widths) = *row;
    let staging = stage(alloc, program)?;
    let net = net_of(alloc, program, &staging)?;
    Ok(
        are(staging.tensors.as_slice(), tensors)
            && are_reads(staging.reads.as_slice(), reads)
            && are_regions(program, &staging, rows, tensors)
            && is_net(&net, reads, widths),
    )
}

// Whether a row holds.
fn holds(alloc: Global, row: &Row) -> Result<bool, AllocError> {
    let (text, _, _, _, _) = *row;
    match parse(alloc, text, MOST_TEXT) {
        Ok(program) => is_staged(alloc, &program, row),
        Err(ParseFail::Refused(_)) => Ok(false),
        Err(ParseFail::Memory) => Err(AllocError),
    }
}

// The number of the first row that doesn't hold, and the number of rows where all do.
fn first_wrong(alloc: Global, rows: &[Row]) -> Result<usize, AllocError> {
    for number in 0..rows.len() {
        if !holds(alloc, &rows[number])? {
            return Ok(number);
        }
    }
    Ok(rows.len())
}

#[test]
fn staged_programs(rt: HostRuntime) -> Result<(), Fail> {
    assert_eq!(rt; first_wrong(rt.alloc(), ROWS)?, ROWS.len());
    Ok(())
}
