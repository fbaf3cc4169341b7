//! The rows, each run in blocks of several sizes, without a fault and then with a fault of each call in turn.

ghost use Rattle.std.specs.Prelude.{◌≡◌, ◌*◌, ◌%◌, ◌<◌, ◌≤◌, true};
ghost use Rattle.array_bytes.specs.Sizes.{cell_size};

use super::reading::read_by;
use super::writing::write_by;
use array_bytes::{CellFault, Form, raw_size};
use int_types::Ty;
use soda_io::{Files, IoErr, MemFiles};
use std::alloc::{AllocError, Global};
use std::process::Abort;
use std::test::Fail;

/// How cells stand in a file.
#[derive(Clone, Copy)]
pub(crate) struct Layout {
    pub(crate) form: Form,
    pub(crate) ty: Ty,
    /// The bits of a burst word.
    pub(crate) burst: u32,
    /// The cells of the file.
    pub(crate) cells: u64,
    /// The cells of a line.
    pub(crate) run: u64,
}

/// Whether a burst word may have so many bits.
pub(crate) fn is_burst(ty: Ty, burst: u32) -> bool
    ensures least { result ≡ true → 8 ≤ burst }
    ensures most { result ≡ true → burst ≤ 8192 }
    ensures whole { result ≡ true → burst % (8 * cell_size ty) ≡ 0 }
{
    burst >= 8 && burst <= 8192 && burst as usize % (8 * raw_size(ty)) == 0
}

// A file that is read: its form, the sign and bits of its type, the bits of a burst word, how many cells it is to have,
// how many line feeds stand before these bytes, and the cells or the fault.
type Read = (
    Form,
    (bool, u8),
    u32,
    u64,
    usize,
    &'static [u8],
    Result<&'static [i128], CellFault>,
);

// Cells that are written: the form, the sign and bits of the type, the bits of a burst word, the cells of a line, the
// cells, and the bytes.
type Written = (Form, (bool, u8), u32, u64, &'static [i128], &'static [u8]);

const UINT1: (bool, u8) = (false, 1);

const UINT8: (bool, u8) = (false, 8);

const INT12: (bool, u8) = (true, 12);

const INT16: (bool, u8) = (true, 16);

const UINT24: (bool, u8) = (false, 24);

const INT64: (bool, u8) = (true, 64);

const UINT64: (bool, u8) = (false, 64);

const POWERS: &[i128] = &[1, 2, 4, 8, 16];

const LEAST: i128 = -9_223_372_036_854_775_808;

const GREATEST: i128 = 18_446_744_073_709_551_615;

// The last of them has 64 bytes.
const LONG_CELL: &[u8] = b"0000000000000000000000000000000000000000000000000000000000000007";

const LONGER_CELL: &[u8] = b"00000000000000000000000000000000000000000000000000000000000000007";

const READ: [Read; 34] = [
    // With and without a final line feed, and behind each kind of white space.
    (Form::Text, UINT8, 8, 5, 0, b"1\n2\n4\n8\n16\n", Ok(POWERS)),
    (Form::Text, UINT8, 8, 5, 0, b"1 2 4 8 16", Ok(POWERS)),
    (
        Form::Text,
        UINT8,
        8,
        5,
        9,
        b"\t01\r\n\x0c2 4 0008\n16 \n\n",
        Ok(POWERS),
    ),
    (Form::Text, UINT8, 8, 0, 3, b"", Ok(&[])),
    // Too few, too many, out of range, no cell.
    (
        Form::Text,
        UINT8,
        8,
        5,
        0,
        b"1 2 4 8",
        Err(CellFault::TooFew(4)),
    ),
    (
        Form::Text,
        UINT8,
        8,
        5,
        0,
        b"1 2 4 8\n",
        Err(CellFault::TooFew(4)),
    ),
    (
        Form::Text,
        UINT8,
        8,
        5,
        0,
        b"1 2 4 8 16 32",
        Err(CellFault::TooMany),
    ),
    (
        Form::Text,
        UINT8,
        8,
        5,
        0,
        b"1 2 256 8 16",
        Err(CellFault::CellRange(2)),
    ),
    (
        Form::Text,
        UINT8,
        8,
        5,
        0,
        b"1 2 -1 x 16",
        Err(CellFault::CellRange(2)),
    ),
    (
        Form::Text,
        UINT8,
        8,
        5,
        0,
        b"1 x 4 8 16",
        Err(CellFault::BadCell(1)),
    ),
    (Form::Text, UINT8, 8, 1, 0, b"-", Err(CellFault::BadCell(0))),
    (
        Form::Text,
        UINT8,
        8,
        1,
        0,
        b"+1",
        Err(CellFault::BadCell(0)),
    ),
    (
        Form::Text,
        UINT1,
        8,
        2,
        0,
        b"1 2",
        Err(CellFault::CellRange(1)),
    ),
    // Too long: five cells have at most 65,856 bytes, and the first byte behind them is looked at before all else.
    (
        Form::Text,
        UINT8,
        8,
        5,
        65_857,
        b"",
        Err(CellFault::TooLong),
    ),
    (
        Form::Text,
        UINT8,
        8,
        5,
        65_856,
        b"",
        Err(CellFault::TooFew(0)),
    ),
    (
        Form::Text,
        UINT8,
        8,
        5,
        65_855,
        b"1",
        Err(CellFault::TooFew(1)),
    ),
    (
        Form::Text,
        UINT8,
        8,
        0,
        65_536,
        b"x",
        Err(CellFault::TooLong),
    ),
    (Form::Text, UINT8, 8, 1, 65_536, LONG_CELL, Ok(&[7])),
    (
        Form::Text,
        UINT8,
        8,
        1,
        65_537,
        LONG_CELL,
        Err(CellFault::TooLong),
    ),
    // A cell of 64 bytes and one of 65.
    (Form::Text, UINT8, 8, 1, 4_090, LONG_CELL, Ok(&[7])),
    (
        Form::Text,
        UINT8,
        8,
        1,
        4_090,
        LONGER_CELL,
        Err(CellFault::BadCell(0)),
    ),
    // The widest types.
    (
        Form::Text,
        INT64,
        64,
        1,
        0,
        b"-9223372036854775808",
        Ok(&[LEAST]),
    ),
    (
        Form::Text,
        UINT64,
        64,
        1,
        0,
        b"18446744073709551615",
        Ok(&[GREATEST]),
    ),
    (
        Form::Text,
        UINT64,
        64,
        1,
        0,
        b"18446744073709551616",
        Err(CellFault::CellRange(0)),
    ),
    // Raw cells, words of one cell and of more, the last of them not full.
    (
        Form::Raw,
        UINT8,
        8,
        5,
        0,
        b"\x01\x02\x04\x08\x10",
        Ok(POWERS),
    ),
    (
        Form::Raw,
        UINT8,
        16,
        5,
        0,
        b"\x01\x02\x04",
        Err(CellFault::TooFew(3)),
    ),
    (
        Form::Raw,
        UINT8,
        16,
        5,
        0,
        b"\x01\x02\x04\x08\x10\x20",
        Err(CellFault::TooMany),
    ),
    (
        Form::Raw,
        INT16,
        48,
        2,
        0,
        b"\xfe\xff\x02\x01",
        Ok(&[-2, 258]),
    ),
    (
        Form::Raw,
        INT16,
        16,
        2,
        0,
        b"\xfe\xff\x02",
        Err(CellFault::TooFew(1)),
    ),
    (
        Form::Raw,
        INT12,
        16,
        2,
        0,
        b"\xff\xff\x00\x08",
        Err(CellFault::CellRange(1)),
    ),
    (
        Form::Raw,
        UINT24,
        32,
        1,
        0,
        b"\x00\x00\x00\x01",
        Err(CellFault::CellRange(0)),
    ),
    (
        Form::Raw,
        INT64,
        64,
        1,
        0,
        b"\xfe\xff\xff\xff\xff\xff\xff\xff",
        Ok(&[-2]),
    ),
    (
        Form::Raw,
        UINT64,
        64,
        1,
        0,
        b"\xff\xff\xff\xff\xff\xff\xff\xff",
        Ok(&[GREATEST]),
    ),
    (Form::Raw, UINT8, 8, 0, 0, b"", Ok(&[])),
];

const WRITTEN: [Written; 11] = [
    (
        Form::Text,
        UINT8,
        8,
        3,
        &[0, 4, 0, 0, 10, 0],
        b"0 4 0\n0 10 0\n",
    ),
    (Form::Text, UINT8, 8, 3, POWERS, b"1 2 4\n8 16\n"),
    (Form::Text, INT16, 16, 1, &[-10, -14], b"-10\n-14\n"),
    (
        Form::Text,
        INT64,
        64,
        1,
        &[LEAST],
        b"-9223372036854775808\n",
    ),
    (
        Form::Text,
        UINT64,
        64,
        1,
        &[GREATEST],
        b"18446744073709551615\n",
    ),
    (Form::Text, UINT8, 8, 3, &[], b""),
    (Form::Raw, UINT8, 8, 1, POWERS, b"\x01\x02\x04\x08\x10"),
    (
        Form::Raw,
        INT16,
        32,
        1,
        &[-2, 258, 3],
        b"\xfe\xff\x02\x01\x03\x00",
    ),
    (Form::Raw, UINT24, 64, 1, &[65_536], b"\x00\x00\x01\x00"),
    (
        Form::Raw,
        INT64,
        64,
        1,
        &[-2],
        b"\xfe\xff\xff\xff\xff\xff\xff\xff",
    ),
    (Form::Raw, UINT8, 8, 1, &[], b""),
];

// The sizes of blocks.
const SIZES: [usize; 4] = [1, 2, 3, 4_096];

// The number of no call.
const NONE: u64 = 1 << 32;

// How many cells the larger files have.
const MANY: u64 = 1_500;

// So many line feeds, and the bytes behind them.
fn behind_line_feeds(alloc: Global, count: usize, bytes: &[u8]) -> Result<Vec<u8>, AllocError> {
    let mut all = vec![in alloc; b'\n'; count]?;
    all.extend_from_slice(bytes)?;
    Ok(all)
}

// Reads a file of these bytes where the call of this number fails, expects this, and tells how many calls there were.
fn read_once(
    rt: &impl Abort,
    alloc: Global,
    bytes: &[u8],
    layout: &Layout,
    size: usize,
    fail: u64,
    wanted: Result<&[i128], CellFault>,
) -> Result<u64, AllocError>
    requires some { 0 < size }
{
    let mut files = MemFiles::new(alloc, &[fail])?;
    files.add("a", bytes)?;
    match files.open("a") {
        Ok(id) => read_by(rt, alloc, &mut files, id, layout, size, wanted)?,
        Err(_) => assert!(rt; false, "not opened"),
    }
    let calls = files.journal().len() as u64;
    drop(files);
    Ok(calls)
}

// Reads a file of these bytes, and again with each read failing in turn.
fn read_each(
    rt: &impl Abort,
    alloc: Global,
    bytes: &[u8],
    layout: &Layout,
    size: usize,
    wanted: Result<&[i128], CellFault>,
) -> Result<(), AllocError>
    requires some { 0 < size }
{
    let calls = read_once(rt, alloc, bytes, layout, size, NONE, wanted)?;
    for fail in 1..calls {
        let failed = Err(CellFault::Failed);
        let made = read_once(rt, alloc, bytes, layout, size, fail, failed)?;
        assert_eq!(rt; made, fail + 1);
    }
    Ok(())
}

// Whether the second begins with the first.
fn is_prefix(first: &[u8], second: &[u8]) -> bool {
    first.len() <= second.len() && first == &second[..first.len()]
}

// Writes cells to a file where the call of this number fails, expects this answer and a prefix of these bytes, all of
// them at Ok, and tells how many calls there were.
fn write_once(
    rt: &impl Abort,
    alloc: Global,
    cells: &[i128],
    layout: &Layout,
    size: usize,
    fail: u64,
    bytes: &[u8],
) -> Result<u64, AllocError>
    requires some { 0 < size }
{
    let wanted = if fail == NONE {
        Ok(())
    } else {
        Err(IoErr::Failed)
    };
    let mut files = MemFiles::new(alloc, &[fail])?;
    match files.create("a") {
        Ok(id) => write_by(rt, alloc, &mut files, id, layout, cells, size, wanted)?,
        Err(_) => assert!(rt; false, "not created"),
    }
    let calls = files.journal().len() as u64;
    match files.bytes_of("a") {
        Some(held) => assert!(rt; is_prefix(held, bytes) && (fail != NONE || held == bytes)),
        None => assert!(rt; false, "not held"),
    }
    drop(files);
    Ok(calls)
}

// Writes cells, and again with each write failing in turn.
fn write_each(
    rt: &impl Abort,
    alloc: Global,
    cells: &[i128],
    layout: &Layout,
    size: usize,
    bytes: &[u8],
) -> Result<(), AllocError>
    requires some { 0 < size }
{
    let calls = write_once(rt, alloc, cells, layout, size, NONE, bytes)?;
    for fail in 1..calls {
        let made = write_once(rt, alloc, cells, layout, size, fail, bytes)?;
        assert_eq!(rt; made, fail + 1);
    }
    Ok(())
}

fn layout_of(
    form: Form,
    (signed, bits): (bool, u8),
    burst: u32,
    cells: u64,
    run: u64,
) -> Option<Layout> {
    match Ty::new(signed, bits) {
        Some(ty) => Some(Layout {
            form,
            ty,
            burst,
            cells,
            run,
        }),
        None => None,
    }
}

// Reads a file in blocks of each size.
fn read_sizes(
    rt: &impl Abort,
    alloc: Global,
    bytes: &[u8],
    layout: &Layout,
    wanted: Result<&[i128], CellFault>,
) -> Result<(), AllocError> {
    for size in &SIZES {
        read_each(rt, alloc, bytes, layout, (*size).max(1), wanted)?;
    }
    Ok(())
}

fn read_row(rt: &impl Abort, alloc: Global, row: &Read) -> Result<(), AllocError> {
    let (form, ty, burst, cells, spaces, bytes, wanted) = *row;
    let all = behind_line_feeds(alloc, spaces, bytes)?;
    match layout_of(form, ty, burst, cells, 1) {
        Some(layout) => read_sizes(rt, alloc, &all, &layout, wanted),
        None => Err(AllocError),
    }
}

// Writes cells in blocks of each size.
fn write_sizes(
    rt: &impl Abort,
    alloc: Global,
    cells: &[i128],
    layout: &Layout,
    bytes: &[u8],
) -> Result<(), AllocError> {
    for size in &SIZES {
        write_each(rt, alloc, cells, layout, (*size).max(1), bytes)?;
    }
    Ok(())
}

fn write_row(rt: &impl Abort, alloc: Global, row: &Written) -> Result<(), AllocError> {
    let (form, ty, burst, run, cells, bytes) = *row;
    match layout_of(form, ty, burst, 0, run) {
        Some(layout) => write_sizes(rt, alloc, cells, &layout, bytes),
        None => Err(AllocError),
    }
}

// Many cells of int16.
fn many_cells(alloc: Global) -> Result<Vec<i128>, AllocError> {
    let mut cells = Vec::new(alloc);
    for number in 0..MANY {
        cells.push((number * 977 % 65_536) as i128 - 32_768)?;
    }
    Ok(cells)
}

/// The bytes that cells are written as.
pub(crate) fn bytes_written(
    rt: &impl Abort,
    alloc: Global,
    cells: &[i128],
    layout: &Layout,
) -> Result<Vec<u8>, AllocError> {
    let mut files = MemFiles::new(alloc, &[])?;
    match files.create("a") {
        Ok(id) => write_by(rt, alloc, &mut files, id, layout, cells, 4_096, Ok(()))?,
        Err(_) => assert!(rt; false, "not created"),
    }
    let bytes = match files.bytes_of("a") {
        Some(bytes) => bytes.to_vec(alloc)?,
        None => Vec::new(alloc),
    };
    drop(files);
    Ok(bytes)
}

// Cells that are written, and their bytes read again.
fn there_and_back(rt: &impl Abort, alloc: Global, layout: &Layout) -> Result<(), AllocError> {
    let cells = many_cells(alloc)?;
    let bytes = bytes_written(rt, alloc, &cells, layout)?;
    write_each(rt, alloc, &cells, layout, 100, &bytes)?;
    read_each(rt, alloc, &bytes, layout, 100, Ok(&cells))
}

fn large_files(rt: &impl Abort, alloc: Global, form: Form) -> Result<(), AllocError> {
    match layout_of(form, INT16, 512, MANY, 7) {
        Some(layout) => there_and_back(rt, alloc, &layout),
        None => Err(AllocError),
    }
}

#[test]
fn cells_of_files(rt: HostRuntime) -> Result<(), Fail> {
    for row in &READ {
        read_row(&rt, rt.alloc(), row)?;
    }
    for row in &WRITTEN {
        write_row(&rt, rt.alloc(), row)?;
    }
    large_files(&rt, rt.alloc(), Form::Text)?;
    large_files(&rt, rt.alloc(), Form::Raw)?;
    Ok(())
}
