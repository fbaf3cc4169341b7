//! Texts of designs, and what is read of them.

use compile_job::{BuildRefusal, compile_program};
use design_reader::{TextFail, read_design};
use module_text::{Design, copy_design, print_design};
use soda_ir::Program;
use soda_parse::{ParseFail, parse};
use soda_words::MOST_TEXT;
use std::alloc::{AllocError, Global};

/// A mean of three cells.
pub(crate) const AVG: &[u8] = b"kernel: avg\nburst width: 8\nunroll factor: 1\ninput uint8: a(*)\n\
output uint8: o(0) = (a(-1) + a(0) + a(1)) / 3\n";

/// The text of its design.
pub(crate) const AVG_DESIGN: &[u8] =
    b"soda 1\nprogram 7\nkernel: avg\nburst width: 8\nunroll factor: 1\n\
iterate: 1\nborder: ignore\ninput uint8: a(*)\noutput uint8: o(0) = (a(-1) + a(0) + a(1)) / 3\n\
tensor 0 a@1 uint8 delay 0 storage 2\ntensor 1 o@1 uint8 delay 1 storage 0\n\
read 0 reader 1 of 0 offset -1 age 2 hold 8 need 0\nread 1 reader 1 of 0 offset 0 age 1 hold 0 need 0\n\
read 2 reader 1 of 0 offset 1 age 0 hold 0 need 8\ntotal bits 16\nmodule 0 forward 0 0 2\n\
module 1 forward 0 0 1\nmodule 2 source 0\nmodule 3 forward 0 0 0\nmodule 4 compute 1 0\nmodule 5 sink 1\n\
queue 0 from 0 to 4 port 0 capacity 1 lead 2\nqueue 1 from 1 to 0 port 0 capacity 1 lead 0\n\
queue 2 from 1 to 4 port 1 capacity 1 lead 1\nqueue 3 from 2 to 3 port 0 capacity 1 lead 0\n\
queue 4 from 3 to 1 port 0 capacity 1 lead 0\nqueue 5 from 3 to 4 port 2 capacity 1 lead 0\n\
queue 6 from 4 to 5 port 0 capacity 1 lead 0\nend\n";

/// The same of two cells at a time.
pub(crate) const AVG_BY_TWO: &[u8] =
    b"kernel: avg\nburst width: 8\nunroll factor: 2\ninput uint8: a(*)\n\
output uint8: o(0) = (a(-1) + a(0) + a(1)) / 3\n";

/// The text of its design, of 8 modules and 12 queues.
pub(crate) const AVG_BY_TWO_DESIGN: &[u8] =
    b"soda 1\nprogram 7\nkernel: avg\nburst width: 8\nunroll factor: 2\niterate: 1\nborder: ignore\n\
input uint8: a(*)\noutput uint8: o(0) = (a(-1) + a(0) + a(1)) / 3\ntensor 0 a@1 uint8 delay 0 storage 2\n\
tensor 1 o@1 uint8 delay 1 storage 0\nread 0 reader 1 of 0 offset -1 age 2 hold 8 need 0\n\
read 1 reader 1 of 0 offset 0 age 1 hold 0 need 0\nread 2 reader 1 of 0 offset 1 age 0 hold 0 need 8\ntotal bits 16\n\
module 0 forward 0 0 1\nmodule 1 forward 0 1 1\nmodule 2 source 0\nmodule 3 forward 0 0 0\nmodule 4 forward 0 1 0\n\
module 5 compute 1 0\nmodule 6 compute 1 1\nmodule 7 sink 1\nqueue 0 from 0 to 5 port 0 capacity 1 lead 1\n\
queue 1 from 1 to 5 port 1 capacity 1 lead 1\nqueue 2 from 1 to 6 port 0 capacity 1 lead 1\n\
queue 3 from 2 to 3 port 0 capacity 1 lead 0\nqueue 4 from 2 to 4 port 0 capacity 1 lead 0\n\
queue 5 from 3 to 0 port 0 capacity 1 lead 0\nqueue 6 from 3 to 5 port 2 capacity 1 lead 0\n\
queue 7 from 3 to 6 port 1 capacity 1 lead 0\nqueue 8 from 4 to 1 port 0 capacity 1 lead 0\n\
queue 9 from 4 to 6 port 2 capacity 1 lead 0\nqueue 10 from 5 to 7 port 0 capacity 1 lead 0\n\
queue 11 from 6 to 7 port 1 capacity 1 lead 0\nend\n";

/// The text of the design of a program, and nothing where it passes a limit.
pub(crate) fn design_of(alloc: Global, program: Program) -> Result<Vec<u8>, AllocError> {
    match compile_program(alloc, program) {
        Ok(made) => {
            let text = made.text;
            drop(made.size);
            Ok(text)
        }
        Err(BuildRefusal::Limit(..)) => Ok(Vec::new(alloc)),
        Err(BuildRefusal::Memory) => Err(AllocError),
    }
}

/// The text of the design of the program of a text, and nothing where there is none.
pub(crate) fn design_text(alloc: Global, text: &[u8]) -> Result<Vec<u8>, AllocError> {
    match parse(alloc, text, MOST_TEXT) {
        Ok(program) => design_of(alloc, program),
        Err(ParseFail::Refused(_)) => Ok(Vec::new(alloc)),
        Err(ParseFail::Memory) => Err(AllocError),
    }
}

// What is printed of a design.
fn printed(alloc: Global, design: Design) -> Result<Vec<u8>, AllocError> {
    let text = print_design(alloc, &design);
    drop(design);
    text
}

/// What is printed of the design that a text is of, or the refused line.
pub(crate) fn read_back(alloc: Global, bytes: &[u8]) -> Result<Result<Vec<u8>, u64>, AllocError> {
    match read_design(alloc, bytes) {
        Ok(design) => Ok(Ok(printed(alloc, design)?)),
        Err(TextFail::Refused(line)) => Ok(Err(line)),
        Err(TextFail::Memory) => Err(AllocError),
    }
}

/// The refused line of a text; none where it is read and printed as it was.
pub(crate) fn refused(alloc: Global, bytes: &[u8]) -> Result<Option<u64>, AllocError> {
    match read_back(alloc, bytes)? {
        Ok(printed) => {
            if printed.as_slice() == bytes {
                Ok(None)
            } else {
                Ok(Some(u64::MAX))
            }
        }
        Err(line) => Ok(Some(line)),
    }
}

/// What is printed of a copy of the design that a text is of, and nothing where it is of none.
pub(crate) fn copied(alloc: Global, bytes: &[u8]) -> Result<Vec<u8>, AllocError> {
    match read_design(alloc, bytes) {
        Ok(design) => {
            let copy = copy_design(alloc, &design);
            drop(design);
            printed(alloc, copy?)
        }
        Err(TextFail::Refused(_)) => Ok(Vec::new(alloc)),
        Err(TextFail::Memory) => Err(AllocError),
    }
}
