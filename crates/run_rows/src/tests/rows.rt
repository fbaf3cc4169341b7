//! Small programs: their output arrays over given input arrays and params.

use super::fit::run;
use sqlite_items::Items;
use std::alloc::{AllocError, Global};
use std::test::Fail;

// A program text, the last extent, the input arrays, the params' values, and the output arrays.
type Row = (
    &'static [u8],
    u64,
    &'static [&'static [i128]],
    &'static [i128],
    &'static [&'static [i128]],
);

const CELLS: &[&[i128]] = &[&[1, 2, 4, 8, 16]];

// A mean of three.
const MEAN: Row = (
    b"kernel: avg\nburst width: 8\nunroll factor: 1\ninput uint8: a(*)\n\
output uint8: o(0) = (a(-1) + a(0) + a(1)) / 3\n",
    5,
    CELLS,
    &[],
    &[&[0, 2, 4, 9, 0]],
);

const ROWS: &[Row] = &[
    MEAN,
    // The same of no cell, and of one alone.
    (
        b"kernel: avg\nburst width: 8\nunroll factor: 1\ninput uint8: a(*)\n\
output uint8: o(0) = (a(-1) + a(0) + a(1)) / 3\n",
        0,
        &[&[]],
        &[],
        &[&[]],
    ),
    (
        b"kernel: avg\nburst width: 8\nunroll factor: 1\ninput uint8: a(*)\n\
output uint8: o(0) = (a(-1) + a(0) + a(1)) / 3\n",
        1,
        &[&[7]],
        &[],
        &[&[0]],
    ),
    // Twice, with both borders.
    (
        b"kernel: avg\nburst width: 8\nunroll factor: 1\niterate: 2\ninput uint8: a(*)\n\
output uint8: o(0) = (a(-1) + a(0) + a(1)) / 3\n",
        5,
        CELLS,
        &[],
        &[&[0, 0, 5, 0, 0]],
    ),
    (
        b"kernel: avg\nburst width: 8\nunroll factor: 1\niterate: 2\nborder: preserve\ninput uint8: a(*)\n\
output uint8: o(0) = (a(-1) + a(0) + a(1)) / 3\n",
        5,
        CELLS,
        &[],
        &[&[1, 2, 5, 9, 16]],
    ),
    // More lanes change no cell.
    (
        b"kernel: avg\nburst width: 8\nunroll factor: 2\ninput uint8: a(*)\n\
output uint8: o(0) = (a(-1) + a(0) + a(1)) / 3\n",
        5,
        CELLS,
        &[],
        &[&[0, 2, 4, 9, 0]],
    ),
    // Two dimensions.
    (
        b"kernel: avg\nburst width: 8\nunroll factor: 1\ninput uint8: a(3, *)\n\
output uint8: o(0, 0) = a(-1, 0) + a(1, 0)\n",
        2,
        &[&[1, 2, 3, 4, 5, 6]],
        &[],
        &[&[0, 4, 0, 0, 10, 0]],
    ),
    // A sum is wider than its cells, unless it is cast.
    (
        b"kernel: avg\nburst width: 8\nunroll factor: 1\ninput uint8: a(*)\n\
output uint8: o(0) = (a(-1) + a(0) + a(1)) / 3\n",
        3,
        &[&[255, 255, 255]],
        &[],
        &[&[0, 255, 0]],
    ),
    (
        b"kernel: avg\nburst width: 8\nunroll factor: 1\ninput uint8: a(*)\n\
output uint8: o(0) = uint8(a(-1) + a(0) + a(1)) / 3\n",
        3,
        &[&[255, 255, 255]],
        &[],
        &[&[0, 84, 0]],
    ),
    // A sum without a division.
    (
        b"kernel: sum3\nburst width: 8\nunroll factor: 1\ninput uint8: a(*)\n\
output uint8: o(0) = a(-1) + a(0) + a(1)\n",
        5,
        CELLS,
        &[],
        &[&[0, 7, 14, 28, 0]],
    ),
    // One read that is far.
    (
        b"kernel: avg\nburst width: 8\nunroll factor: 1\ninput uint8: a(*)\noutput uint8: o(0) = a(-5)\n",
        7,
        &[&[1, 2, 3, 4, 5, 6, 7]],
        &[],
        &[&[0, 0, 0, 0, 0, 1, 2]],
    ),
    // Params: of one size, and of two, where the last index is the fastest.
    (
        b"kernel: scale\nburst width: 16\nunroll factor: 1\nparam int16: c[2]\ninput int16: a(*)\n\
output int16: o(0) = a(0) * c[1]\n",
        2,
        &[&[5, 7]],
        &[3, -2],
        &[&[-10, -14]],
    ),
    (
        b"kernel: scale\nburst width: 16\nunroll factor: 1\nparam int16: s\nparam int16: c[2][3]\ninput int16: a(*)\n\
output int16: o(0) = a(0) * c[1][0] + c[0][2] + s\n",
        2,
        &[&[5, 7]],
        &[1000, 1, 2, 3, 4, 5, 6],
        &[&[1023, 1031]],
    ),
    // A product of two sums.
    (
        b"kernel: avg\nburst width: 8\nunroll factor: 1\ninput uint8: a(*)\n\
output uint8: o(0) = (a(0) + a(1)) * (a(5) + a(6))\n",
        8,
        &[&[1, 2, 3, 4, 5, 6, 7, 8]],
        &[],
        &[&[39, 75, 0, 0, 0, 0, 0, 0]],
    ),
    // Two inputs that change places, each output with the border of its own input.
    (
        b"kernel: swap\nburst width: 8\nunroll factor: 1\niterate: 2\nborder: preserve\n\
input uint8: a\ninput uint8: b(*)\n\
output uint8: o(0) = b(1)\noutput uint8: p(0) = a(-1)\n",
        3,
        &[&[1, 2, 3], &[4, 5, 6]],
        &[],
        &[&[1, 2, 3], &[4, 5, 6]],
    ),
    // A local that is read at two places, and one that nothing reads.
    (
        b"kernel: edges\nburst width: 16\nunroll factor: 1\ninput uint16: a(*)\nlocal int16: d(0) = a(1) - a(-1)\n\
local uint16: unread(0) = a(9)\noutput uint16: o(0) = abs(d(0)) + abs(d(1))\n",
        6,
        &[&[10, 7, 1, 1, 5, 2]],
        &[],
        &[&[0, 15, 10, 5, 0, 0]],
    ),
    // Operators whose values depend on their types.
    (
        b"kernel: signs\nburst width: 8\nunroll factor: 1\ninput int8: a(*)\n\
output int8: o(0) = a(0) / 3\noutput int8: r(0) = a(0) % 3\noutput uint8: u(0) = uint8(a(0)) / 2\n",
        3,
        &[&[-7, 7, -128]],
        &[],
        &[&[-2, 2, -42], &[-1, 1, -2], &[124, 3, 64]],
    ),
    // Four dimensions: the region keeps away from the ends of each that is read across.
    (
        b"kernel: far\nburst width: 16\nunroll factor: 1\ninput int16: a(2, 2, 2, *)\n\
output int16: o(0, 0, 0, 0) = a(0, 0, 0, 0) * 100 + a(1, -1, 0, 1)\n",
        2,
        &[&[1, 2, 3, 4, 5, 6, 7, 8, 9, 10, 11, 12, 13, 14, 15, 16]],
        &[],
        &[&[0, 0, 310, 0, 0, 0, 714, 0, 0, 0, 0, 0, 0, 0, 0, 0]],
    ),
];

// Whether the arrays are these.
fn are(arrays: &[Items<i128>], wanted: &[&[i128]]) -> bool {
    match arrays {
        [] => wanted.is_empty(),
        [array, rest @ ..] => match wanted {
            [] => false,
            [cells, others @ ..] => array.as_slice() == *cells && are(rest, others),
        },
    }
}

// The arrays of these cells.
fn made(alloc: Global, arrays: &[&[i128]]) -> Result<Vec<Items<i128>>, AllocError> {
    let mut inputs = Vec::new(alloc);
    for cells in arrays {
        inputs.push(Items::from_slice(alloc, cells)?)?;
    }
    Ok(inputs)
}

// Whether a row's run gives its outputs.
fn holds(alloc: Global, row: &Row) -> Result<bool, AllocError> {
    let (text, rows, arrays, params, wanted) = *row;
    let inputs = made(alloc, arrays)?;
    match run(alloc, text, rows, &inputs, params) {
        Ok(Some(outputs)) => Ok(are(&outputs, wanted)),
        Ok(None) => Ok(false),
        Err(refused) => Err(refused),
    }
}

// The number of the first row that doesn't hold, and the number of rows where all do.
fn first_wrong(alloc: Global, rows: &[Row]) -> Result<usize, AllocError> {
    for number in 0..rows.len() {
        if !holds(alloc, &rows[number])? {
            return Ok(number);
        }
    }
    Ok(rows.len())
}

#[test]
fn arrays_of_programs(rt: HostRuntime) -> Result<(), Fail> {
    assert_eq!(rt; first_wrong(rt.alloc(), ROWS)?, ROWS.len());
    Ok(())
}

// What doesn't fit a program is told by the rows themselves: a cell out of range, a row too many, a param too few.
#[test]
fn only_what_fits_is_run(rt: HostRuntime) -> Result<(), Fail> {
    let (text, rows, _, _, _) = MEAN;
    for cells in [[1, 2, 4, 8, 256], [1, 2, 4, 8, -1]] {
        let inputs = made(rt.alloc(), &[&cells])?;
        assert_eq!(rt; run(rt.alloc(), text, rows, &inputs, &[])?.is_none(), true);
    }
    let inputs = made(rt.alloc(), CELLS)?;
    assert_eq!(rt;
        run(rt.alloc(), text, rows + 1, &inputs, &[])?.is_none(),
        true
    );
    assert_eq!(rt; run(rt.alloc(), text, rows, &inputs, &[1])?.is_none(), true);
    Ok(())
}
