use job_program::spoken_program;
use share_expr::{ShareRefusal, share};
use soda_ir::Program;
use soda_parse::{LimitKind, ParseFail, Refusal, parse, print};
use soda_words::MOST_TEXT;
use std::alloc::{AllocError, Global};
use std::test::Fail;

// What sharing makes of a text: lines of the shared program behind those of its settings and its inputs, or a limit.
enum Made {
    Lines(&'static [u8]),
    Past(LimitKind, u128),
}

// What texts begin with, and what is printed of that.
const BEGUN: &[u8] = b"kernel: k burst width: 8 unroll factor: 1 input uint8: a(*)\n";

const PRINTED: &[u8] =
    b"kernel: k\nburst width: 8\nunroll factor: 1\niterate: 1\nborder: ignore\ninput uint8: a(*)\n";

const ROWS: &[(&[u8], Made)] = &[
    // Two sums that differ by a vector alone, and two that don't.
    (
        b"output uint8: o(0) = (a(0) + a(1)) * (a(5) + a(6))",
        Made::Lines(
            b"local int32: share_0(0) = a(0) + a(1)\noutput uint8: o(0) = share_0(0) * share_0(5)\n",
        ),
    ),
    (
        b"output uint8: o(0) = (a(0) + a(1)) * (a(5) + a(7))",
        Made::Lines(b"output uint8: o(0) = (a(0) + a(1)) * (a(5) + a(7))\n"),
    ),
    // The greater compound first, then the parts of its local, which stand before it.
    (
        b"output uint8: o(0) = (a(0) + a(1)) * (a(2) + a(3)) - (a(5) + a(6)) * (a(7) + a(8))",
        Made::Lines(
            b"local int32: share_1(0) = a(0) + a(1)\nlocal int32: share_0(0) = share_1(0) * share_1(2)\n\
output uint8: o(0) = share_0(0) - share_0(5)\n",
        ),
    ),
    // Before the first statement with the compound, by the offset of its first cell, and by a name that no other has.
    (
        b"local uint8: p(0) = a(0) local int8: share_0(0) = -a(4) * p(1) output uint8: o(0) = share_0(0) - -a(-2)",
        Made::Lines(
            b"local uint8: p(0) = a(0)\nlocal int32: share_1(0) = -a(0)\nlocal int8: share_0(0) = share_1(4) * p(1)\n\
output uint8: o(0) = share_0(0) - share_1(-2)\n",
        ),
    ),
    // A local whose cells stand too far apart.
    (
        b"output uint8: o(0) = (a(-32768) + a(1)) * (a(-1) + a(32768))",
        Made::Past(LimitKind::Offset, 32769),
    ),
];

// The text of a row.
fn text_of(alloc: Global, lines: &[u8]) -> Result<Vec<u8>, AllocError> {
    let mut text = Vec::from_slice(alloc, BEGUN)?;
    text.extend_from_slice(lines)?;
    Ok(text)
}

// Whether a program is printed so, behind its settings and inputs.
fn is_printed(alloc: Global, program: &Program, lines: &[u8]) -> Result<bool, AllocError> {
    let text = print(alloc, program)?;
    let mut wanted = Vec::from_slice(alloc, PRINTED)?;
    wanted.extend_from_slice(lines)?;
    Ok(text == wanted)
}

// Whether a program is what a row says.
fn is_made(alloc: Global, program: &Program, made: &Made) -> Result<bool, AllocError> {
    match made {
        Made::Lines(lines) => is_printed(alloc, program, *lines),
        Made::Past(_, _) => Ok(false),
    }
}

// Whether a limit is the one that a row says.
fn is_past(kind: LimitKind, number: u128, made: &Made) -> bool {
    match made {
        Made::Lines(_) => false,
        Made::Past(other, most) => *other == kind && *most == number,
    }
}

// Whether sharing the program of a text does what a row says.
fn is_shared(alloc: Global, program: &Program, made: &Made) -> Result<bool, AllocError> {
    match share(alloc, program) {
        Ok(shared) => is_made(alloc, &shared, made),
        Err(ShareRefusal::Limit(kind, number)) => Ok(is_past(kind, number, made)),
        Err(ShareRefusal::Memory) => Err(AllocError),
    }
}

// Whether the program that is spoken of is what a row says, where sharing is asked for.
fn is_spoken(alloc: Global, text: &[u8], made: &Made) -> Result<bool, AllocError> {
    match spoken_program(alloc, text, MOST_TEXT, true) {
        Ok(program) => is_made(alloc, &program, made),
        Err(ParseFail::Refused(Refusal::Limit(kind, number))) => Ok(is_past(kind, number, made)),
        Err(ParseFail::Refused(_)) => Ok(false),
        Err(ParseFail::Memory) => Err(AllocError),
    }
}

// Whether the program of a text is spoken of as it is, where sharing is not asked for, and shared where it is.
fn holds_of(
    alloc: Global,
    text: &[u8],
    program: &Program,
    made: &Made,
) -> Result<bool, AllocError> {
    let own = print(alloc, program)?;
    match spoken_program(alloc, text, MOST_TEXT, false) {
        Ok(spoken) => {
            let printed = print(alloc, &spoken)?;
            Ok(printed == own && is_shared(alloc, program, made)? && is_spoken(alloc, text, made)?)
        }
        Err(ParseFail::Refused(_)) => Ok(false),
        Err(ParseFail::Memory) => Err(AllocError),
    }
}

// Whether a row holds.
fn holds(alloc: Global, lines: &[u8], made: &Made) -> Result<bool, AllocError> {
    let text = text_of(alloc, lines)?;
    match parse(alloc, &text, MOST_TEXT) {
        Ok(program) => holds_of(alloc, &text, &program, made),
        Err(ParseFail::Refused(_)) => Ok(false),
        Err(ParseFail::Memory) => Err(AllocError),
    }
}

// The number of the first row that doesn't hold, and the number of rows where all do.
fn first_wrong(alloc: Global) -> Result<usize, AllocError> {
    for number in 0..ROWS.len() {
        let (lines, made) = &ROWS[number];
        if !holds(alloc, *lines, made)? {
            return Ok(number);
        }
    }
    Ok(ROWS.len())
}

#[test]
fn shared_programs(rt: HostRuntime) -> Result<(), Fail> {
    assert_eq!(rt; first_wrong(rt.alloc())?, ROWS.len());
    Ok(())
}
