//! The text of a design cut after each of its bytes, and with each of them changed.

use crate::tests::texts::{AVG_DESIGN, design_of, refused};
use soda_ir::Program;
use soda_parse::{ParseFail, parse, print};
use soda_words::MOST_CANONICAL;
use std::alloc::{AllocError, Global};
use std::test::Fail;

// Where the lines of the program begin and end in the text.
const PROGRAM: (usize, usize) = (17, 152);

/// The number of the line that the byte of a number stands in.
fn line_of(text: &[u8], at: usize) -> u64 {
    let mut line: u64 = 1;
    for (number, byte) in text.iter().enumerate() {
        if number == at {
            return line;
        }
        if *byte == b'\n' {
            line = line.saturating_add(1);
        }
    }
    line
}

// A line of the program is refused at the second.
fn told_at(line: u64) -> u64 {
    if line > 2 && line < 10 { 2 } else { line }
}

// Whether each cut is refused at the line that it goes into.
fn first_wrong_cut(alloc: Global, text: &[u8]) -> Result<usize, AllocError> {
    for count in 0..text.len() {
        if refused(alloc, &text[..count])? != Some(told_at(line_of(text, count))) {
            return Ok(count);
        }
    }
    Ok(text.len())
}

// Whether a number of one digit stands in a text, with this behind it, in a line of a plan.
fn is_before(text: &[u8], at: usize, piece: &[u8]) -> bool {
    at < text.len() && text[at].is_ascii_digit() && text[at + 1..].starts_with(piece)
}

// Whether the byte of a number is a delay.
fn is_delay(text: &[u8], at: usize) -> bool {
    is_before(text, at, b" storage ")
}

// Whether it is a storage, a hold or a need.
fn is_amount(text: &[u8], at: usize) -> bool {
    let line = line_of(text, at);
    line > 9 && line < 15 && (is_before(text, at, b"\n") || is_before(text, at, b" need "))
}

// What a line has before what a plan chooses.
fn fixed<'a>(line: &'a [u8]) -> &'a [u8] {
    for at in 0..line.len() {
        if line[at..].starts_with(b" delay ") || line[at..].starts_with(b" age ") {
            return &line[..at];
        }
    }
    line
}

// The first line, its line feed left out, and what follows it.
fn cut<'a>(text: &'a [u8]) -> (&'a [u8], &'a [u8]) {
    for at in 0..text.len() {
        if text[at] == b'\n' {
            return (&text[..at], &text[at + 1..]);
        }
    }
    (text, b"")
}

// The first line of a text that is not that of another, but for what a plan chooses.
fn first_apart(text: &[u8], other: &[u8]) -> Option<u64> {
    let mut rest = text;
    let mut wanted = other;
    let mut line: u64 = 1;
    for _ in 0..text.len() {
        let (found, behind) = cut(rest);
        let (due, later) = cut(wanted);
        if fixed(found) != fixed(due) {
            return Some(line);
        }
        rest = behind;
        wanted = later;
        line = line.saturating_add(1);
    }
    None
}

// The refused line of a text with another program.
fn refused_by(
    alloc: Global,
    text: &[u8],
    canonical: &[u8],
    program: Program,
) -> Result<Option<u64>, AllocError> {
    let printed = print(alloc, &program)?;
    let same = printed.as_slice() == canonical;
    drop(printed);
    if !same {
        drop(program);
        return Ok(Some(2));
    }
    let other = design_of(alloc, program)?;
    let line = first_apart(text, &other);
    drop(other);
    Ok(line)
}

// The line at which a text with another byte at a number is refused, where that is no byte of the program: a delay
// shows at the first read, whose age is another then, and a storage or an amount of the certificate at the total.
fn refused_for(text: &[u8], at: usize, byte: u8) -> u64 {
    if !byte.is_ascii_digit() {
        line_of(text, at)
    } else if is_delay(text, at) {
        12
    } else if is_amount(text, at) {
        15
    } else {
        line_of(text, at)
    }
}

// The line at which avg's text with one other byte is refused, if it is.
fn wanted(alloc: Global, changed: &[u8], at: usize, byte: u8) -> Result<Option<u64>, AllocError> {
    if at < PROGRAM.0 || at >= PROGRAM.1 || changed.len() < PROGRAM.1 {
        return Ok(Some(refused_for(AVG_DESIGN, at, byte)));
    }
    let canonical = &changed[PROGRAM.0..PROGRAM.1];
    match parse(alloc, canonical, MOST_CANONICAL) {
        Ok(program) => refused_by(alloc, changed, canonical, program),
        Err(ParseFail::Refused(_)) => Ok(Some(2)),
        Err(ParseFail::Memory) => Err(AllocError),
    }
}

// Whether avg's text with this byte at a number is refused where it is to be.
fn holds(alloc: Global, at: usize, byte: u8) -> Result<bool, AllocError> {
    let mut changed = Vec::from_slice(alloc, AVG_DESIGN)?;
    if at < changed.len() {
        changed[at] = byte;
    }
    let wanted = wanted(alloc, &changed, at, byte);
    let found = refused(alloc, &changed);
    drop(changed);
    Ok(found? == wanted?)
}

// What each byte is changed to.
const BYTES: &[u8] = b" \n09b";

// The number of the first byte with a change that is not refused where it is to be.
fn first_wrong_change(alloc: Global, text: &[u8]) -> Result<usize, AllocError> {
    for at in 0..text.len() {
        for byte in BYTES {
            if text[at] != *byte && !holds(alloc, at, *byte)? {
                return Ok(at);
            }
        }
    }
    Ok(text.len())
}

#[test]
fn texts_cut_after_each_byte(rt: HostRuntime) -> Result<(), Fail> {
    assert_eq!(rt; first_wrong_cut(rt.alloc(), AVG_DESIGN)?, AVG_DESIGN.len());
    Ok(())
}

#[test]
fn texts_with_each_byte_changed(rt: HostRuntime) -> Result<(), Fail> {
    assert_eq!(rt;
        first_wrong_change(rt.alloc(), AVG_DESIGN)?,
        AVG_DESIGN.len()
    );
    Ok(())
}
