//! Stall files: the stalls that they list, and the lines at which they are refused.

use sim_lines::{LineFail, MOST_STALL_BYTES, Stall, read_stalls};
use soda_ir::Program;
use soda_parse::{ParseFail, parse};
use soda_words::MOST_TEXT;
use std::alloc::{AllocError, Global};
use std::test::Fail;

// What a stall file gives: stalls, each the number of a cycle and of a tensor, or the line at which it is refused.
#[derive(Clone, Copy)]
enum Wanted {
    Stalls(&'static [(u64, u32)]),
    Line(u64),
}

// A stall file, and what it gives.
type Row = (&'static [u8], Wanted);

const AVG: &[u8] = b"kernel: avg\nburst width: 8\nunroll factor: 1\ninput uint8: a(*)\n\
output uint8: o(0) = (a(-1) + a(0) + a(1)) / 3\n";

const AVG_ROWS: &[Row] = &[
    (
        b"2 a\n3 a\n4 o\n",
        Wanted::Stalls(&[(2, 0), (3, 0), (4, 1)]),
    ),
    (b"2 b\n", Wanted::Line(1)),
    // No lines, white space, and repeats in the order of the file.
    (b"", Wanted::Stalls(&[])),
    (b" \n\t\x0c\r\n", Wanted::Stalls(&[])),
    (
        b"7 o\n\n\t2   a \r\n7 o",
        Wanted::Stalls(&[(7, 1), (2, 0), (7, 1)]),
    ),
    // Numbers.
    (
        b"0 a\n18446744073709551615 o",
        Wanted::Stalls(&[(0, 0), (18446744073709551615, 1)]),
    ),
    (b"0 a\n\n18446744073709551616 o", Wanted::Line(3)),
    (b"00 a", Wanted::Line(1)),
    (b"-1 a", Wanted::Line(1)),
    (b"a 1", Wanted::Line(1)),
    // Too few words, and too many.
    (b"1 a\n2", Wanted::Line(2)),
    (b"1 a\n2 a o", Wanted::Line(2)),
    (b"1 a\n2 A", Wanted::Line(2)),
];

const LOCAL: &[u8] =
    b"kernel: copies\nburst width: 8\nunroll factor: 1\ninput uint8: a(*)\ninput uint8: b(*)\n\
local uint8: t(0) = a(0)\noutput uint8: o(0) = t(0)\noutput uint8: p(0) = b(0)\n";

const LOCAL_ROWS: &[Row] = &[
    (
        b"1 p\n1 o\n1 b\n1 a\n",
        Wanted::Stalls(&[(1, 4), (1, 3), (1, 1), (1, 0)]),
    ),
    (b"1 a\n1 t\n", Wanted::Line(2)),
];

// Whether stalls are those that are wanted.
fn are(stalls: &[Stall], wanted: &[(u64, u32)]) -> bool {
    if stalls.len() != wanted.len() {
        return false;
    }
    for (stall, pair) in stalls.iter().zip(wanted) {
        if stall.cycle != pair.0 || stall.tensor != pair.1 {
            return false;
        }
    }
    true
}

// Whether a stall file gives what is wanted; an error where memory ran out.
fn gives(alloc: Global, program: &Program, row: &Row) -> Result<bool, AllocError> {
    match read_stalls(alloc, program, row.0) {
        Ok(stalls) => match row.1 {
            Wanted::Stalls(wanted) => Ok(are(&stalls, wanted)),
            Wanted::Line(_) => Ok(false),
        },
        Err(LineFail::Line(line)) => match row.1 {
            Wanted::Stalls(_) => Ok(false),
            Wanted::Line(wanted) => Ok(line == wanted),
        },
        Err(LineFail::Memory) => Err(AllocError),
    }
}

// The number of the first row that doesn't hold, and the number of rows where all do.
fn first_wrong(alloc: Global, text: &[u8], rows: &[Row]) -> Result<usize, AllocError> {
    let program = match parse(alloc, text, MOST_TEXT) {
        Ok(program) => program,
        Err(ParseFail::Refused(_)) => return Ok(0),
        Err(ParseFail::Memory) => return Err(AllocError),
    };
    for number in 0..rows.len() {
        if !gives(alloc, &program, &rows[number])? {
            return Ok(number);
        }
    }
    Ok(rows.len())
}

#[test]
fn stalls_of_files(rt: HostRuntime) -> Result<(), Fail> {
    assert_eq!(rt; first_wrong(rt.alloc(), AVG, AVG_ROWS)?, AVG_ROWS.len());
    assert_eq!(rt;
        first_wrong(rt.alloc(), LOCAL, LOCAL_ROWS)?,
        LOCAL_ROWS.len()
    );
    Ok(())
}

// A file of as many bytes as may be, and of one more.
#[test]
fn the_longest_file(rt: HostRuntime) -> Result<(), Fail> {
    let mut bytes = vec![in rt.alloc(); b'\n'; MOST_STALL_BYTES - 3]?;
    bytes.extend_from_slice(b"2 a")?;
    match parse(rt.alloc(), AVG, MOST_TEXT) {
        Ok(program) => {
            let stalls = read_stalls(rt.alloc(), &program, &bytes);
            assert_eq!(rt; stalls.map(|stalls| stalls.len()).ok(), Some(1));
            bytes.push(b' ')?;
            let stalls = read_stalls(rt.alloc(), &program, &bytes);
            assert_eq!(rt;
                stalls.map(|stalls| stalls.len()).err(),
                Some(LineFail::Line(0))
            );
        }
        Err(_) => assert_eq!(rt; "refused", "parsed"),
    }
    Ok(())
}
