//! Texts that are read back, and texts of which a line is another.

use crate::tests::texts::{
    AVG, AVG_BY_TWO, AVG_BY_TWO_DESIGN, AVG_DESIGN, copied, design_text, refused,
};
use std::alloc::{AllocError, Global};
use std::test::Fail;

/// A text in which a line is another, or is left out with all behind it where it is none.
fn with_line(alloc: Global, text: &[u8], number: u64, line: &[u8]) -> Result<Vec<u8>, AllocError> {
    let mut made = Vec::new(alloc);
    let mut at: u64 = 1;
    for byte in text {
        if at != number {
            made.push(*byte)?;
        }
        if *byte == b'\n' {
            if at == number {
                made.extend_from_slice(line)?;
            }
            at = at.saturating_add(1);
        }
    }
    Ok(made)
}

// The number of a line of avg's text, what stands there instead, and the refused line.
type Row = (u64, &'static [u8], u64);

const ROWS: &[Row] = &[
    (1, b"soda 2\n", 1),
    (1, b"soda 1 \n", 1),
    (1, b"", 1),
    (2, b"program 8\n", 2),
    (2, b"program 6\n", 2),
    (2, b"program 07\n", 2),
    (2, b"program 18446744073709551616\n", 2),
    // Not the canonical text.
    (4, b"burst  width: 8\n", 2),
    (9, b"output uint8: o(0) = ((a(-1) + a(0) + a(1))) / 3\n", 2),
    (9, b"output uint8: o(0) = (a(-1) + b(0) + a(1)) / 3\n", 2),
    (9, b"", 2),
    // Two blanks.
    (10, b"tensor  0 a@1 uint8 delay 0 storage 2\n", 10),
    (10, b"tensor 0 a@1 uint8 delay 00 storage 2\n", 10),
    (
        10,
        b"tensor 0 a@1 uint8 delay 4611686018427387904 storage 2\n",
        10,
    ),
    (
        10,
        b"tensor 0 a@1 uint8 delay 4611686018427387903 storage 2\n",
        12,
    ),
    (
        10,
        b"tensor 0 a@1 uint8 delay 0 storage 18446744073709551616\n",
        10,
    ),
    (
        10,
        b"tensor 0 a@1 uint8 delay 0 storage 18446744073709551615\n",
        15,
    ),
    // A storage that is not the greatest age.
    (11, b"tensor 1 o@1 uint8 delay 1 storage 1\n", 15),
    // A window that is not met, and an age that the delays do not give.
    (11, b"tensor 1 o@1 uint8 delay 0 storage 0\n", 12),
    (
        12,
        b"read 0 reader 1 of 0 offset -1 age 3 hold 8 need 0\n",
        12,
    ),
    // A certificate that does not fit, and amounts that are too great.
    (
        12,
        b"read 0 reader 1 of 0 offset -1 age 2 hold 7 need 0\n",
        15,
    ),
    (
        13,
        b"read 1 reader 1 of 0 offset 0 age 1 hold 0 need 4294967295\n",
        15,
    ),
    (
        13,
        b"read 1 reader 1 of 0 offset 0 age 1 hold 0 need 4294967296\n",
        13,
    ),
    (
        13,
        b"read 1 reader 1 of 0 offset 0 age 1 hold 4294967296 need 0\n",
        13,
    ),
    (14, b"", 14),
    (15, b"total bits 17\n", 15),
    (16, b"module 0 forward 0 0 3\n", 16),
    (18, b"module 2 sink 0\n", 18),
    // A queue of another capacity.
    (26, b"queue 4 from 3 to 1 port 0 capacity 2 lead 0\n", 26),
    (28, b"queue 6 from 4 to 5 port 0 capacity 1 lead 1\n", 28),
    // The last line left out, without its line feed, and with more behind it.
    (29, b"", 29),
    (29, b"end", 29),
    (29, b"end\n\n", 30),
    (29, b"end\nend\n", 30),
    (29, b"end\n ", 30),
];

fn holds(alloc: Global, row: &Row) -> Result<bool, AllocError> {
    let (number, line, wanted) = *row;
    let text = with_line(alloc, AVG_DESIGN, number, line)?;
    let found = refused(alloc, &text);
    drop(text);
    Ok(found? == Some(wanted))
}

// The number of the first row that doesn't hold, and the number of rows where all do.
fn first_wrong(alloc: Global, rows: &[Row]) -> Result<usize, AllocError> {
    for number in 0..rows.len() {
        if !holds(alloc, &rows[number])? {
            return Ok(number);
        }
    }
    Ok(rows.len())
}

#[test]
fn texts_of_which_a_line_is_another(rt: HostRuntime) -> Result<(), Fail> {
    assert_eq!(rt; first_wrong(rt.alloc(), ROWS)?, ROWS.len());
    Ok(())
}

// Whether this is the text of the design of a program, is read back, and is that of a copy.
fn is_text(alloc: Global, program: &[u8], text: &[u8]) -> Result<bool, AllocError> {
    let made = design_text(alloc, program)?;
    let copy = copied(alloc, text)?;
    Ok(made.as_slice() == text && copy.as_slice() == text && refused(alloc, text)? == None)
}

#[test]
fn texts_of_means(rt: HostRuntime) -> Result<(), Fail> {
    assert!(rt; is_text(rt.alloc(), AVG, AVG_DESIGN)?);
    assert!(rt; is_text(rt.alloc(), AVG_BY_TWO, AVG_BY_TWO_DESIGN)?);
    Ok(())
}
