//! Params files: the values that they give, and the lines at which they are refused.

use param_lines::{LineFail, read_params};
use soda_ir::Program;
use soda_parse::{ParseFail, parse};
use soda_words::MOST_TEXT;
use std::alloc::{AllocError, Global};
use std::test::Fail;

// What a params file gives.
#[derive(Clone, Copy)]
enum Wanted {
    Values(&'static [i128]),
    Line(u64),
}

// A params file, and what it gives.
type Row = (&'static [u8], Wanted);

const SCALE: &[u8] = b"kernel: scale\nburst width: 16\nunroll factor: 1\nparam int16: c[2]\n\
input int16: a(*)\noutput int16: o(0) = a(0) * c[1]\n";

const SCALE_ROWS: &[Row] = &[
    (b"c 3 -2", Wanted::Values(&[3, -2])),
    (b"c 3", Wanted::Line(1)),
    (b"c 3 -2\n", Wanted::Values(&[3, -2])),
    // White space: before, between and behind the words; lines of nothing else.
    (b"\t c\x0c3\r  -2 \r\n \n\r\n", Wanted::Values(&[3, -2])),
    (b"\n \n\n c 3 -2", Wanted::Values(&[3, -2])),
    // Leading zeros, as many as there are; the ends of the range.
    (b"c 007 -0", Wanted::Values(&[7, 0])),
    (
        b"c 00000000000000000000000000000000000000000000000000000000000000000000000000000005 -2",
        Wanted::Values(&[5, -2]),
    ),
    (b"c 32767 -32768", Wanted::Values(&[32767, -32768])),
    (b"c 32768 0", Wanted::Line(1)),
    (b"c 0 -32769", Wanted::Line(1)),
    (
        b"c 340282366920938463463374607431768211456 0",
        Wanted::Line(1),
    ),
    // No values, and words that write none.
    (b"c", Wanted::Line(1)),
    (b"\nc 3 +2", Wanted::Line(2)),
    (b"\nc 3 -", Wanted::Line(2)),
    (b"\nc 3 2.", Wanted::Line(2)),
    (b"c 3 -2 1", Wanted::Line(1)),
    // Another name, and a name again, behind blank lines.
    (b"c 3 -2\n\nd 1", Wanted::Line(3)),
    (b"c 3 -2\n\n\nc 3 -2", Wanted::Line(4)),
    // No line for the param.
    (b"", Wanted::Line(0)),
    (b"\n \n", Wanted::Line(0)),
];

const MANY: &[u8] = b"kernel: many\nburst width: 16\nunroll factor: 1\nparam uint8: a\n\
param int64: table[2][3]\nparam uint1: bit\ninput int16: x(*)\noutput int16: o(0) = x(0) * table[1][2] + a + bit\n";

const MANY_ROWS: &[Row] = &[
    // The params in another order than the lines.
    (
        b"bit 1\ntable 1 2 3 -4 -5 9223372036854775807\n\na 255\n",
        Wanted::Values(&[255, 1, 2, 3, -4, -5, 9223372036854775807, 1]),
    ),
    (b"bit 1\ntable 1 2 3 4 5 6\n", Wanted::Line(0)),
    (b"bit 1\na 256\ntable 1 2 3 4 5 6\nbit 2\n", Wanted::Line(2)),
    (b"bit 2\na 1\ntable 1 2 3 4 5 6\n", Wanted::Line(1)),
];

const NONE: &[u8] = b"kernel: plus\nburst width: 8\nunroll factor: 1\ninput uint8: a(*)\n\
output uint8: o(0) = a(0) + 1\n";

const NONE_ROWS: &[Row] = &[
    (b"", Wanted::Values(&[])),
    (b"  \n\t\n", Wanted::Values(&[])),
    (b"\n\nc 1\n", Wanted::Line(3)),
];

// Whether a params file gives what is wanted; None where memory ran out.
fn gives(alloc: Global, program: &Program, row: &Row) -> Result<bool, AllocError> {
    match read_params(alloc, program, row.0) {
        Ok(values) => match row.1 {
            Wanted::Values(wanted) => Ok(values.as_slice() == wanted),
            Wanted::Line(_) => Ok(false),
        },
        Err(LineFail::Line(line)) => match row.1 {
            Wanted::Values(_) => Ok(false),
            Wanted::Line(wanted) => Ok(line == wanted),
        },
        Err(LineFail::Memory) => Err(AllocError),
    }
}

// The number of the first row that doesn't hold, and the number of rows where all do.
fn first_wrong(alloc: Global, text: &[u8], rows: &[Row]) -> Result<usize, AllocError> {
    let program = match parse(alloc, text, MOST_TEXT) {
        Ok(program) => program,
        Err(ParseFail::Refused(_)) => return Ok(0),
        Err(ParseFail::Memory) => return Err(AllocError),
    };
    for number in 0..rows.len() {
        if !gives(alloc, &program, &rows[number])? {
            return Ok(number);
        }
    }
    Ok(rows.len())
}

#[test]
fn params_of_files(rt: HostRuntime) -> Result<(), Fail> {
    assert_eq!(rt;
        first_wrong(rt.alloc(), SCALE, SCALE_ROWS)?,
        SCALE_ROWS.len()
    );
    assert_eq!(rt; first_wrong(rt.alloc(), MANY, MANY_ROWS)?, MANY_ROWS.len());
    assert_eq!(rt; first_wrong(rt.alloc(), NONE, NONE_ROWS)?, NONE_ROWS.len());
    Ok(())
}

// A file of as many bytes as may be, and of one more.
#[test]
fn the_longest_file(rt: HostRuntime) -> Result<(), Fail> {
    let mut bytes = vec![in rt.alloc(); b' '; 8_388_602]?;
    bytes.extend_from_slice(b"c 3 -2")?;
    match parse(rt.alloc(), SCALE, MOST_TEXT) {
        Ok(program) => {
            let values = read_params(rt.alloc(), &program, &bytes);
            assert_eq!(rt; values.map(|values| values.len()).ok(), Some(2));
            bytes.push(b' ')?;
            let values = read_params(rt.alloc(), &program, &bytes);
            assert_eq!(rt;
                values.map(|values| values.len()).err(),
                Some(LineFail::Line(0))
            );
        }
        Err(_) => assert_eq!(rt; "refused", "parsed"),
    }
    Ok(())
}
