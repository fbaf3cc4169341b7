ghost use Rattle.std.specs.Prelude.{◌≡◌, ◌↔◌, IsTrue, ℕ, IfOk, MatchOption, length};
ghost use Rattle.design_lines.specs.Lines.{GoesOn, IsWritten, program_lines};
ghost use Rattle.design_lines.specs.machine.Reading.{line_bytes};
ghost use Rattle.design_reader.specs.Stops.{IfRefused};
ghost use Rattle.design_reader.specs.machine.Pieces.{IsCut};
ghost use Rattle.soda_ir.specs.Program.{PlainProgram, plain};
ghost use Rattle.soda_print.specs.Canonical.{canonical, canonical_lines};

use crate::{NoMemory, TextFail};
use design_lines::{behind, line_count, number_behind};
use soda_ir::Program;
use soda_parse::{ParseFail, parse};
use soda_print::print;
use soda_words::MOST_CANONICAL;
use std::alloc::Global;

// How many bytes the first so many lines of a text have with their line feeds, if there are as many.
fn line_bytes(text: &[u8], lines: u64) -> Option<usize>
    ensures { result ≡ line_bytes lines text.now }
{
    let mut left = lines;
    for (at, byte) in text.iter().enumerate() {
        if left == 0 {
            return Some(at);
        }
        if *byte == b'\n' {
            left -= 1;
        }
    }
    if left == 0 { Some(text.len()) } else { None }
}

/// A text cut behind the lines of a program.
#[derive(Clone, Copy)]
pub(crate) struct Cut<'a> {
    /// How many lines the program is said to have.
    pub(crate) lines: u64,
    /// These lines.
    pub(crate) program: &'a [u8],
    /// What follows them.
    pub(crate) rest: &'a [u8],
}

/// The text cut behind as many lines as it says that its program has, if it says so and has as many.
pub(crate) fn program_cut<'a>(text: &'a [u8]) -> Option<Cut<'a>>
    ensures { MatchOption result ((p : PlainProgram) → IsWritten p → GoesOn (program_lines p) text.now → ⊥)
        (λ cut. IsCut text.now cut.lines cut.program.now cut.rest.now) }
{
    let Some(number) = behind(b"program ", text) else {
        return None;
    };
    let Some(told) = number_behind(b"\n", number) else {
        return None;
    };
    match line_bytes(told.rest, told.number) {
        Some(bytes) => {
            let (program, rest) = told.rest.split_at(bytes);
            Some(Cut {
                lines: told.number,
                program,
                rest,
            })
        }
        None => None,
    }
}

// Whether a text is the canonical text of a program, and has so many lines.
fn is_canonical(alloc: Global, text: &[u8], lines: u64, program: &Program) -> Result<bool, NoMemory>
    ensures same { IfOk result (λ same. IsTrue same ↔ ((canonical (plain program.now) ≡ text.now)
        × (length (canonical_lines (plain program.now)) ≡ lines))) }
    ensures written { IfOk result (λ same. IsWritten (plain program.now)) }
{
    let canonical = print(alloc, program)?;
    Ok(canonical.as_slice() == text && line_count(program.parts()) == lines as u128)
}

// The program, if its canonical text is this one.
fn if_canonical(
    alloc: Global,
    text: &[u8],
    lines: u64,
    program: Program,
) -> Result<Program, TextFail>
    ensures same { IfOk result (λ p. p ≡ program) }
    ensures is { IfOk result (λ p. (canonical (plain p) ≡ text.now) × (length (canonical_lines (plain p)) ≡ lines)) }
    ensures written { IfOk result (λ p. IsWritten (plain p)) }
    ensures refused { IfRefused result (λ line. (line ≡ 2) × ((canonical (plain program) ≡ text.now)
        → (length (canonical_lines (plain program)) ≡ lines) → ⊥)) }
{
    match is_canonical(alloc, text, lines, &program) {
        Ok(true) => Ok(program),
        Ok(false) => {
            drop(program);
            Err(TextFail::Refused(2))
        }
        Err(error) => {
            drop(program);
            Err(TextFail::from(error))
        }
    }
}

/// The program whose canonical text is this, with so many lines.
pub(crate) fn canonical_program(alloc: Global, text: &[u8], lines: u64) -> Result<Program, TextFail>
    ensures is { IfOk result (λ p. (canonical (plain p) ≡ text.now) × (length (canonical_lines (plain p)) ≡ lines)) }
    ensures written { IfOk result (λ p. IsWritten (plain p)) }
    ensures refused { IfRefused result (λ line. (line ≡ 2) × ((p : PlainProgram) → IsWritten p
        → canonical p ≡ text.now → length (canonical_lines p) ≡ lines → ⊥)) }
{
    match parse(alloc, text, MOST_CANONICAL) {
        Ok(program) => if_canonical(alloc, text, lines, program),
        Err(ParseFail::Refused(_)) => Err(TextFail::Refused(2)),
        Err(ParseFail::Memory) => Err(TextFail::Memory),
    }
}
