//! Runs of `execute`, a row each: the calls on files in their order, a fault of each of them, and what is left then.
//! Words, programs and cells have their rows in the tables that the built program is run on.

use super::narrow::Narrow;
use array_bytes::CellFault;
use soda_io::{FileCall, FileRole, MemFiles, MemSink};
use soda_parse::Refusal;
use sodac_cli::{ArrayFault, Status, execute};
use std::alloc::{AllocError, Global};
use std::process::Abort;
use std::test::Fail;

// The words, separated by single blanks; the numbers of the calls on files that fail; how many parts of ten bytes
// standard output takes, and the numbers of the writes to standard error that fail; the status; what both took; what
// `o` holds afterwards; and the calls on files, a letter each.
type Row = (
    &'static str,
    &'static [u64],
    (u64, &'static [u64]),
    Status,
    [&'static [u8]; 2],
    Option<&'static [u8]>,
    &'static [u8],
);

// More parts than a row prints, and no write that fails.
const ALL: (u64, &[u64]) = (100, &[]);

const NOTHING: &[u8] = b"";

// The program `p`, which is its own canonical text.
const SUM3: &[u8] =
    b"kernel: sum3\nburst width: 8\nunroll factor: 1\niterate: 1\nborder: ignore\ninput uint8: a(*)\n\
output uint8: o(0) = a(-1) + a(0) + a(1)\n";

// What the first three parts of it hold.
const BEGUN: &[u8] = b"kernel: sum3\nburst width: 8\nun";

// The lines of its plan: one certificate fits.
const PLANNED: &[u8] =
    b"kernel sum3\ntensor 0 a@1 uint8 delay 0 storage 2\ntensor 1 o@1 uint8 delay 1 storage 0\n\
read 0 reader 1 of 0 offset -1 age 2 hold 8 need 0\nread 1 reader 1 of 0 offset 0 age 1 hold 0 need 0\n\
read 2 reader 1 of 0 offset 1 age 0 hold 0 need 8\ntotal bits 16\n";

// The text of its design: of the certificates one fits.
const MODULES: &[u8] =
    b"soda 1\nprogram 7\nkernel: sum3\nburst width: 8\nunroll factor: 1\niterate: 1\n\
border: ignore\ninput uint8: a(*)\noutput uint8: o(0) = a(-1) + a(0) + a(1)\n\
tensor 0 a@1 uint8 delay 0 storage 2\ntensor 1 o@1 uint8 delay 1 storage 0\n\
read 0 reader 1 of 0 offset -1 age 2 hold 8 need 0\nread 1 reader 1 of 0 offset 0 age 1 hold 0 need 0\n\
read 2 reader 1 of 0 offset 1 age 0 hold 0 need 8\ntotal bits 16\n\
module 0 forward 0 0 2\nmodule 1 forward 0 0 1\nmodule 2 source 0\nmodule 3 forward 0 0 0\nmodule 4 compute 1 0\n\
module 5 sink 1\nqueue 0 from 0 to 4 port 0 capacity 1 lead 2\nqueue 1 from 1 to 0 port 0 capacity 1 lead 0\n\
queue 2 from 1 to 4 port 1 capacity 1 lead 1\nqueue 3 from 2 to 3 port 0 capacity 1 lead 0\n\
queue 4 from 3 to 1 port 0 capacity 1 lead 0\nqueue 5 from 3 to 4 port 2 capacity 1 lead 0\n\
queue 6 from 4 to 5 port 0 capacity 1 lead 0\nend\n";

const SIZE: &[u8] = b"modules 6\nqueues 7\nstorage 16\n";

// The cells `i`.
const CELLS: &[u8] = b"1\n2\n4\n8\n16\n";

const SUMS: &[u8] = b"0\n7\n14\n28\n0\n";

const PLAIN: &str = "sodac plain p 5 i o";

const CHECK: &str = "sodac check p";

const PLAN: &str = "sodac plan p";

const COMPILE: &str = "sodac compile p o";

const FILE: Status = Status::FileFault(FileRole::Modules);

const OF_FILE: [&[u8]; 2] = [b"", b"sodac: file fault: modules\n"];

const IN: Status = Status::FileFault(FileRole::Input(0));

const OUT: Status = Status::FileFault(FileRole::Output(0));

const TEXT: Status = Status::FileFault(FileRole::Program);

const OF_IN: [&[u8]; 2] = [b"", b"sodac: file fault: input 0\n"];

const OF_OUT: [&[u8]; 2] = [b"", b"sodac: file fault: output 0\n"];

const OF_TEXT: [&[u8]; 2] = [b"", b"sodac: file fault: program\n"];

const USAGE: [&[u8]; 2] = [
    b"",
    b"sodac: usage: sodac [--share] [--raw] [--trace] [--params FILE] [--stall FILE] MODE WORDS\n",
];

const SYNTAX: [&[u8]; 2] = [b"", b"sodac: program: line 1: syntax\n"];

const MORE: Status = Status::Array(ArrayFault::Cell {
    input: 0,
    fault: CellFault::TooMany,
});

const OF_MORE: [&[u8]; 2] = [b"", b"sodac: input 0: too many cells\n"];

const BAD: Status = Status::Array(ArrayFault::Cell {
    input: 0,
    fault: CellFault::BadCell(0),
});

const OF_BAD: [&[u8]; 2] = [b"", b"sodac: input 0: bad cell 0\n"];

const UNBUILT: [&[u8]; 2] = [b"", b"sodac: not yet built\n"];

const FAULT: &[u8] = b"sodac: output fault\n";

// What `o` holds before, where it is there.
const OLD: &[u8] = b"255\n255\n255\n255\n255\n255\n";

// Runs where `o` isn't there before.
const ROWS: &[Row] = &[
    // All is well: the output is created before the input is read.
    (
        PLAIN,
        &[],
        ALL,
        Status::Ok,
        [b"", b""],
        Some(SUMS),
        b"orrocrrw",
    ),
    (CHECK, &[], ALL, Status::Ok, [SUM3, b""], None, b"orr"),
    (PLAN, &[], ALL, Status::Ok, [PLANNED, b""], None, b"orr"),
    // Each call fails in turn.
    (PLAIN, &[0], ALL, TEXT, OF_TEXT, None, b"o"),
    (PLAIN, &[1], ALL, TEXT, OF_TEXT, None, b"or"),
    (PLAIN, &[2], ALL, TEXT, OF_TEXT, None, b"orr"),
    (PLAIN, &[3], ALL, IN, OF_IN, None, b"orro"),
    (PLAIN, &[4], ALL, OUT, OF_OUT, None, b"orroc"),
    (PLAIN, &[5], ALL, IN, OF_IN, Some(NOTHING), b"orrocr"),
    (PLAIN, &[6], ALL, IN, OF_IN, Some(NOTHING), b"orrocrr"),
    (PLAIN, &[7], ALL, OUT, OF_OUT, Some(NOTHING), b"orrocrrw"),
    (CHECK, &[0], ALL, TEXT, OF_TEXT, None, b"o"),
    (CHECK, &[1], ALL, TEXT, OF_TEXT, None, b"or"),
    (CHECK, &[2], ALL, TEXT, OF_TEXT, None, b"orr"),
    // The output takes no part, and some.
    (
        CHECK,
        &[],
        (0, &[]),
        Status::OutFault,
        [b"", FAULT],
        None,
        b"orr",
    ),
    (
        CHECK,
        &[],
        (1, &[]),
        Status::OutFault,
        [b"kernel: su", FAULT],
        None,
        b"orr",
    ),
    (
        CHECK,
        &[],
        (3, &[]),
        Status::OutFault,
        [BEGUN, FAULT],
        None,
        b"orr",
    ),
    (PLAN, &[1], ALL, TEXT, OF_TEXT, None, b"or"),
    (
        PLAN,
        &[],
        (0, &[]),
        Status::OutFault,
        [b"", FAULT],
        None,
        b"orr",
    ),
    (
        PLAN,
        &[],
        (1, &[]),
        Status::OutFault,
        [b"kernel sum", FAULT],
        None,
        b"orr",
    ),
    // The file of a design is created once that is made, and the lines are printed once it is written.
    (
        COMPILE,
        &[],
        ALL,
        Status::Ok,
        [SIZE, b""],
        Some(MODULES),
        b"orrcw",
    ),
    (COMPILE, &[0], ALL, TEXT, OF_TEXT, None, b"o"),
    (COMPILE, &[1], ALL, TEXT, OF_TEXT, None, b"or"),
    (COMPILE, &[2], ALL, TEXT, OF_TEXT, None, b"orr"),
    (COMPILE, &[3], ALL, FILE, OF_FILE, None, b"orrc"),
    (COMPILE, &[4], ALL, FILE, OF_FILE, Some(NOTHING), b"orrcw"),
    (
        COMPILE,
        &[],
        (0, &[]),
        Status::OutFault,
        [b"", FAULT],
        Some(MODULES),
        b"orrcw",
    ),
    (
        COMPILE,
        &[],
        (1, &[]),
        Status::OutFault,
        [b"modules 6\n", FAULT],
        Some(MODULES),
        b"orrcw",
    ),
    (
        "sodac compile i o",
        &[],
        ALL,
        Status::Program(Refusal::Syntax(1)),
        SYNTAX,
        None,
        b"orr",
    ),
    // The program is judged before the input is opened, and that before the cells are read.
    (
        "sodac plain i 5 none o",
        &[],
        ALL,
        Status::Program(Refusal::Syntax(1)),
        SYNTAX,
        None,
        b"orr",
    ),
    (
        "sodac plain p 16777216 none o",
        &[],
        ALL,
        IN,
        OF_IN,
        None,
        b"orro",
    ),
    (
        "sodac plain p 4 i o",
        &[],
        ALL,
        MORE,
        OF_MORE,
        Some(NOTHING),
        b"orrocr",
    ),
    // The input may be the program's file.
    (
        "sodac plain p 5 p o",
        &[],
        ALL,
        BAD,
        OF_BAD,
        Some(NOTHING),
        b"orrocr",
    ),
    // Names are judged once the program is accepted, and before a file is created.
    (
        "sodac plain p 5 i",
        &[],
        ALL,
        Status::Usage,
        USAGE,
        None,
        b"orr",
    ),
    // Where the line can't be written the status stays.
    (
        "sodac",
        &[],
        (100, &[0]),
        Status::Usage,
        [b"", b""],
        None,
        b"",
    ),
    (
        "sodac check i",
        &[],
        (100, &[0]),
        Status::Program(Refusal::Syntax(1)),
        [b"", b""],
        None,
        b"orr",
    ),
    (PLAIN, &[4], (100, &[0]), OUT, [b"", b""], None, b"orroc"),
    (
        CHECK,
        &[],
        (1, &[0]),
        Status::OutFault,
        [b"kernel: su", b""],
        None,
        b"orr",
    ),
    // Where all is well nothing is written to standard error, so that it would fail is not seen.
    (
        PLAIN,
        &[],
        (100, &[0]),
        Status::Ok,
        [b"", b""],
        Some(SUMS),
        b"orrocrrw",
    ),
    // What isn't built asks for no file, shared or not.
    (
        "sodac sim p 5 i o",
        &[],
        ALL,
        Status::NotYetBuilt,
        UNBUILT,
        None,
        b"",
    ),
    (
        "sodac --share sim p 5 i o",
        &[],
        ALL,
        Status::NotYetBuilt,
        UNBUILT,
        None,
        b"",
    ),
    (
        "sodac compile p p",
        &[],
        ALL,
        Status::Usage,
        USAGE,
        None,
        b"",
    ),
];

// Runs where `o` is there before: it keeps its bytes until it is created, and loses them all then.
const OVER: &[Row] = &[
    (
        PLAIN,
        &[],
        ALL,
        Status::Ok,
        [b"", b""],
        Some(SUMS),
        b"orrocrrw",
    ),
    (PLAIN, &[3], ALL, IN, OF_IN, Some(OLD), b"orro"),
    (PLAIN, &[4], ALL, OUT, OF_OUT, Some(OLD), b"orroc"),
    (PLAIN, &[5], ALL, IN, OF_IN, Some(NOTHING), b"orrocr"),
    (
        "sodac plain p 4 i o",
        &[],
        ALL,
        MORE,
        OF_MORE,
        Some(NOTHING),
        b"orrocr",
    ),
    (
        "sodac plain p 5 o o",
        &[],
        ALL,
        Status::Usage,
        USAGE,
        Some(OLD),
        b"orr",
    ),
    // A program that is refused is told as such, though the output is named like its input.
    (
        "sodac plain i 5 o o",
        &[],
        ALL,
        Status::Program(Refusal::Syntax(1)),
        SYNTAX,
        Some(OLD),
        b"orr",
    ),
];

// The words of a line.
pub(crate) fn words(alloc: Global, line: &str) -> Result<Vec<String>, AllocError> {
    let mut all = Vec::new(alloc);
    for word in line.split(' ') {
        all.push(String::from_str(alloc, word)?)?;
    }
    Ok(all)
}

// The files of a run some of whose calls fail, and what `o` holds before.
fn files(alloc: Global, fails: &[u64], old: Option<&[u8]>) -> Result<MemFiles, AllocError> {
    let mut files = MemFiles::new(alloc, fails)?;
    files.add("p", SUM3)?;
    files.add("i", CELLS)?;
    if let Some(bytes) = old {
        files.add("o", bytes)?;
    }
    Ok(files)
}

fn letter(call: &FileCall) -> u8 {
    match call {
        FileCall::Open { .. } => b'o',
        FileCall::Create { .. } => b'c',
        FileCall::Read { .. } => b'r',
        FileCall::Write { .. } => b'w',
    }
}

// Whether the calls are of the kinds that these letters tell.
fn are_told(calls: &[FileCall], letters: &[u8]) -> bool {
    calls.len() == letters.len()
        && calls
            .iter()
            .zip(letters)
            .all(|(call, told)| letter(call) == *told)
}

fn expect(rt: &impl Abort, row: &Row, status: Status, files: &MemFiles, out: &[u8], err: &[u8]) {
    let (line, fails, parts, wanted, told, left, calls) = *row;
    assert_eq!(rt; status, wanted, "{line} {fails:?} {parts:?}");
    assert_eq!(rt; out, told[0], "{line} {fails:?} {parts:?}");
    assert_eq!(rt; err, told[1], "{line} {fails:?} {parts:?}");
    assert_eq!(rt; files.bytes_of("o"), left, "{line} {fails:?} {parts:?}");
    assert!(rt;
        are_told(files.journal(), calls),
        "calls: {line} {fails:?} {parts:?}"
    );
}

fn run(rt: &impl Abort, alloc: Global, row: &Row, old: Option<&[u8]>) -> Result<(), AllocError> {
    let words = words(alloc, row.0)?;
    let mut files = files(alloc, row.1, old)?;
    let (parts, err_fails) = row.2;
    let mut out = Narrow::new(alloc, parts);
    let mut err = MemSink::new(alloc, err_fails)?;
    let status = execute(alloc, &words, &mut files, &mut out, &mut err);
    expect(rt, row, status, &files, out.bytes(), err.bytes());
    drop(words);
    drop(files);
    drop(out);
    drop(err);
    Ok(())
}

#[test]
fn jobs(rt: HostRuntime) -> Result<(), Fail> {
    for row in ROWS {
        run(&rt, rt.alloc(), row, None)?;
    }
    for row in OVER {
        run(&rt, rt.alloc(), row, Some(OLD))?;
    }
    assert_eq!(rt; Status::OutFault.number(), 6);
    Ok(())
}
