//! The program: real files, standard output and standard error.
#![tactic(auto)]

use soda_io::{RealFiles, StdSink};
use sodac_cli::{Status, execute};
use std::alloc::{AllocError, Global};
use std::env;
use std::io::ErrorKind;
use std::process::ExitCode;
use std::rt::Runtime;

fn ends_with(status: Status) -> ExitCode {
    ExitCode::from(status.number())
}

// The words of the command line, and none where one is no UTF-8, since no mode takes such a word.
fn words<R: Runtime>(rt: &R, alloc: Global) -> Result<Vec<String>, AllocError> {
    match env::args(&(rt, alloc)) {
        Ok(args) => args.collect(alloc),
        Err(error) if error.kind() == ErrorKind::OutOfMemory => Err(AllocError),
        Err(_) => Ok(Vec::new(alloc)),
    }
}

fn main(rt: HostRuntime) -> ExitCode {
    let alloc = rt.alloc();
    let Ok(words) = words(&rt, alloc) else {
        return ends_with(Status::Memory);
    };
    let Ok(mut files) = RealFiles::new(&rt, alloc) else {
        return ends_with(Status::Memory);
    };
    let mut out = StdSink::new(rt.stdout());
    let mut err = StdSink::new(rt.stderr());
    ends_with(execute(alloc, &words, &mut files, &mut out, &mut err))
}
