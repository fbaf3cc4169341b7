//! A job with params, two inputs and two outputs: each call on files fails in turn.

use super::jobs::words;
use soda_io::{FileRole, MemFiles, MemSink};
use sodac_cli::{Status, execute};
use std::alloc::{AllocError, Global};
use std::process::Abort;
use std::test::Fail;

const PAIR: &[u8] =
    b"kernel: pair\nburst width: 8\nunroll factor: 1\nparam uint8: c\ninput uint8: a\ninput uint8: b(*)\n\
output uint8: o(0) = a(0) + c\noutput uint8: r(0) = b(0) - c\n";

const JOB: &str = "sodac --params v plain p 3 a b o r";

const FIRST: &[u8] = b"2\n3\n4\n";

const SECOND: &[u8] = b"3\n4\n5\n";

const NOTHING: &[u8] = b"";

// The file of each call, in order: the program, the params and each input are opened and read to their ends, where the
// outputs are created behind the openings.
const ROLES: &[FileRole] = &[
    FileRole::Program,
    FileRole::Program,
    FileRole::Program,
    FileRole::Params,
    FileRole::Params,
    FileRole::Params,
    FileRole::Input(0),
    FileRole::Input(1),
    FileRole::Output(0),
    FileRole::Output(1),
    FileRole::Input(0),
    FileRole::Input(0),
    FileRole::Input(1),
    FileRole::Input(1),
    FileRole::Output(0),
    FileRole::Output(1),
];

// The files of the job, where these calls fail.
fn files(alloc: Global, fails: &[u64]) -> Result<MemFiles, AllocError> {
    let mut files = MemFiles::new(alloc, fails)?;
    files.add("p", PAIR)?;
    files.add("v", b"c 1\n")?;
    files.add("a", b"1 2 3\n")?;
    files.add("b", b"4\n5 6")?;
    Ok(files)
}

// What an output holds where the call of a number fails, by the calls that create and write it.
fn held(
    call: usize,
    creating: usize,
    writing: usize,
    text: &'static [u8],
) -> Option<&'static [u8]> {
    if call <= creating {
        None
    } else if call <= writing {
        Some(NOTHING)
    } else {
        Some(text)
    }
}

// Runs the job where this call fails; there is no call of the number behind the last.
fn run(rt: &impl Abort, alloc: Global, call: usize, wanted: Status) -> Result<(), AllocError> {
    let words = words(alloc, JOB)?;
    let mut files = files(alloc, &[call as u64])?;
    let mut out = MemSink::new(alloc, &[])?;
    let mut err = MemSink::new(alloc, &[])?;
    let status = execute(alloc, &words, &mut files, &mut out, &mut err);
    assert_eq!(rt; status, wanted, "call {call}");
    assert_eq!(rt;
        files.bytes_of("o"),
        held(call, 8, 14, FIRST),
        "first output, call {call}"
    );
    assert_eq!(rt;
        files.bytes_of("r"),
        held(call, 9, 15, SECOND),
        "second output, call {call}"
    );
    assert_eq!(rt;
        files.journal().len(),
        call.min(ROLES.len() - 1) + 1,
        "calls, call {call}"
    );
    assert_eq!(rt; out.bytes(), NOTHING);
    drop(words);
    drop(files);
    drop(out);
    drop(err);
    Ok(())
}

#[test]
fn each_call_fails_in_turn(rt: HostRuntime) -> Result<(), Fail> {
    for call in 0..ROLES.len() {
        run(&rt, rt.alloc(), call, Status::FileFault(ROLES[call]))?;
    }
    run(&rt, rt.alloc(), ROLES.len(), Status::Ok)?;
    Ok(())
}
