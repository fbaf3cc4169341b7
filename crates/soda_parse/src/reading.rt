ghost use Rattle.std.specs.Prelude.{◌≡◌, ◌<◌, ◌≤◌, ◌^◌, None, length, map, IfOk};
ghost use Rattle.soda_checks.specs.Names.{names_of};
ghost use Rattle.soda_checks.specs.Outline.{outline_of};
ghost use Rattle.soda_ir.specs.Program.{PlainProgram, plain};
ghost use Rattle.soda_ir.specs.Valid.{IsValid};
ghost use Rattle.soda_parse.specs.Fails.{IfRefused, unread};
ghost use Rattle.soda_parse.specs.Text.{Accepts, Refuses};
ghost use Rattle.soda_parse.specs.declared.refusal.Refusal.{Refusal as Cause};
ghost use Rattle.soda_formula.specs.Statements.{plain_statement};
ghost use Rattle.soda_syntax.specs.SyntaxError.{IsSyntax};
ghost use Rattle.soda_words.specs.Tokens.{not_ascii, tokens_of};

use crate::program::make_parts;
use crate::refusing::refusal_by;
use crate::{NoMemory, Refusal};
use soda_checks::{Names, Outline, make_names, make_outline};
use soda_formula::Statement;
use soda_ir::{MakeRefusal, Parts, Program};
use soda_syntax::{SyntaxFail, read_statements};
use soda_words::not_ascii;
use std::alloc::Global;

/// Why a text gives no program.
#[derive(Clone, Copy, Debug, PartialEq, Eq)]
pub enum ParseFail {
    /// The first condition on texts that fails, with its line or number.
    Refused(Refusal),
    /// Want of memory.
    Memory,
}

// The program of valid parts.
fn make_program(alloc: Global, parts: Parts) -> Result<Program, ParseFail>
    requires { IsValid (plain parts) }
    ensures made { IfOk result (λ p. p ≡ parts) }
    ensures memory { IfRefused result (λ r. ⊥) }
{
    match Program::make(alloc, parts) {
        Ok(program) => Ok(program),
        Err(MakeRefusal::Invalid) => unreachable!(),
        Err(MakeRefusal::Memory) => Err(ParseFail::Memory),
    }
}

// The program of the parts that the statements of a text stand for, or why the text is refused.
fn answer_parts(
    alloc: Global,
    text: &[u8],
    most: u32,
    statements: &[Statement],
    outline: &Outline,
    names: &Names,
) -> Result<Program, ParseFail>
    requires short { length text.now ≤ most }
    requires few { length text.now < 2 ^ 32 }
    requires ascii { not_ascii text.now ≡ None }
    requires syntax { IsSyntax (tokens_of text.now) (map plain_statement statements.now) }
    requires outline { outline.now ≡ outline_of (map plain_statement statements.now) }
    requires names { names.now ≡ names_of outline.now }
    ensures accepted { IfOk result (λ p. Accepts most text.now (plain p)) }
    ensures refused { IfRefused result (Refuses most text.now) }
{
    let _ = text;
    let _ = most;
    let Ok(parts) = make_parts(alloc, outline, names, statements) else {
        return Err(ParseFail::Memory);
    };
    match refusal_by(alloc, outline, names, &parts) {
        Ok(None) => make_program(alloc, parts),
        Ok(Some(refusal)) => {
            drop(parts);
            Err(ParseFail::Refused(refusal))
        }
        Err(NoMemory) => {
            drop(parts);
            Err(ParseFail::Memory)
        }
    }
}

// The same, by the outline of the statements.
fn answer_outline(
    alloc: Global,
    text: &[u8],
    most: u32,
    statements: &[Statement],
    outline: &Outline,
) -> Result<Program, ParseFail>
    requires short { length text.now ≤ most }
    requires ascii { not_ascii text.now ≡ None }
    requires syntax { IsSyntax (tokens_of text.now) (map plain_statement statements.now) }
    requires outline { outline.now ≡ outline_of (map plain_statement statements.now) }
    ensures accepted { IfOk result (λ p. Accepts most text.now (plain p)) }
    ensures refused { IfRefused result (Refuses most text.now) }
{
    let Ok(names) = make_names(alloc, outline) else {
        return Err(ParseFail::Memory);
    };
    let answer = answer_parts(alloc, text, most, statements, outline, &names);
    drop(names);
    answer
}

// The program that the statements of a text stand for, or why it is refused.
fn answer_statements(
    alloc: Global,
    text: &[u8],
    most: u32,
    statements: &[Statement],
) -> Result<Program, ParseFail>
    requires short { length text.now ≤ most }
    requires ascii { not_ascii text.now ≡ None }
    requires syntax { IsSyntax (tokens_of text.now) (map plain_statement statements.now) }
    ensures accepted { IfOk result (λ p. Accepts most text.now (plain p)) }
    ensures refused { IfRefused result (Refuses most text.now) }
{
    let Ok(outline) = make_outline(alloc, statements) else {
        return Err(ParseFail::Memory);
    };
    let answer = answer_outline(alloc, text, most, statements, &outline);
    drop(outline);
    answer
}

// The answer to a text whose statements were not read.
fn unread(fail: SyntaxFail) -> ParseFail
    ensures { result ≡ unread fail }
{
    match fail {
        SyntaxFail::Refused(line) => ParseFail::Refused(Refusal::Syntax(line)),
        SyntaxFail::Memory => ParseFail::Memory,
    }
}

// The program that a text stands for, or why it is refused.
fn read_text(alloc: Global, text: &[u8], most: u32) -> Result<Program, ParseFail>
    ensures accepted { IfOk result (λ p. Accepts most text.now (plain p)) }
    ensures refused { IfRefused result (Refuses most text.now) }
{
    if text.len() > most as usize {
        return Err(ParseFail::Refused(Refusal::TextTooLong));
    }
    if let Some(line) = not_ascii(text) {
        return Err(ParseFail::Refused(Refusal::NotAscii(line)));
    }
    match read_statements(alloc, text) {
        Ok(statements) => {
            let answer = answer_statements(alloc, text, most, &statements);
            drop(statements);
            answer
        }
        Err(fail) => Err(unread(fail)),
    }
}

/// The program that a text of at most so many bytes stands for. A text is refused by the first of the
/// conditions that fails: its length, bytes of 128 or more outside comments, the grammar, and then those
/// on its statements, each with its line or its number.
pub fn parse(alloc: Global, text: &[u8], most: u32) -> Result<Program, ParseFail>
    ensures accepted { IfOk result (λ p. Accepts most text.now (plain p)) }
    ensures only { IfOk result (λ p. (q : PlainProgram) → Accepts most text.now q → q ≡ plain p) }
    ensures not_refused { IfOk result (λ p. (r : Cause) → Refuses most text.now r → ⊥) }
    ensures refused { IfRefused result (Refuses most text.now) }
    ensures first { IfRefused result (λ r. (s : Cause) → Refuses most text.now s → s ≡ r) }
    ensures not_accepted { IfRefused result (λ r. (q : PlainProgram) → Accepts most text.now q → ⊥) }
{
    read_text(alloc, text, most)
}
